// The heap's calls at their limits: no memory, one place, full, more memory than places, equal
// ranks, nested kinds, refusals that change nothing.
#![tactic(auto)]

ghost use Rattle.std.specs.Prelude.{replicate};

#[cfg(test)]
mod tests {
    use binary_heap::BinaryHeap;
    use elements::clause::Clause;
    use elements::refusal::{Fault, Refusal};
    use keepers::ceiling::Ceiling;
    use keepers::ration::Ration;
    use rows::check::first_out_of_order;
    use std::cmp::Reverse;
    use std::test::Fail;
    use supplies::lent::Lent;
    use supplies::repeat::Repeat;
    use supplies::supply::Supply;

    fn refusal_of<A: Drop, F: Fault + Drop>(answer: Result<A, F>) -> Option<Refusal> {
        answer.err().map(|fault| fault.refusal())
    }

    // Sevens, and how often one was asked for.
    #[derive(Drop)]
    struct Counted {
        left: usize,
        asked: usize,
    }

    impl Supply<u64> for Counted {
        ghost rest = { λ s. replicate s.left 7 };

        fn more(&self) -> bool {
            self.left > 0
        }

        fn next(&mut self) -> Option<u64> {
            self.asked = self.asked.wrapping_add(1);
            self.left = self.left.checked_sub(1)?;
            Some(7)
        }
    }

    #[test]
    fn no_memory(rt: HostRuntime) {
        let mut places: [u64; 0] = [];
        let mut heap = BinaryHeap::new(&mut places);
        assert_eq!(rt; heap.capacity(), 0);
        assert!(rt; heap.is_empty());
        assert!(rt; heap.pop().is_none());
        assert!(rt; heap.peek().is_none());
        let refusal = refusal_of(heap.push(7));
        assert_eq!(rt; refusal, Some(Refusal::by_with(2, 1)));
    }

    #[test]
    fn one_place(rt: HostRuntime) {
        let mut places = [9u64];
        let mut heap = BinaryHeap::new(&mut places);
        assert!(rt;
            heap.get(0).is_none(),
            "the place holds 9, and the row nothing"
        );
        assert!(rt; heap.push(4).is_ok());
        assert!(rt; heap.push(5).is_err());
        assert_eq!(rt; heap.peek().copied(), Some(4));
        assert_eq!(rt; heap.pop(), Some(4));
        assert_eq!(rt; heap.pop(), None);
        assert!(rt; heap.push(6).is_ok());
        assert_eq!(rt; heap.len(), 1);
        assert!(rt; places == [6]);
    }

    #[test]
    fn a_full_heap_stays_as_it_is(rt: HostRuntime) {
        let mut places = [0u64; 3];
        let mut heap = BinaryHeap::new(&mut places);
        assert!(rt; heap.push(1).is_ok() && heap.push(2).is_ok() && heap.push(3).is_ok());
        assert!(rt; heap.push(4).is_err());
        assert_eq!(rt; heap.len(), 3);
        assert!(rt; places == [3, 1, 2]);
    }

    #[test]
    fn a_pop_leaves_the_places_behind_the_row(rt: HostRuntime) {
        let mut places = [0u64; 5];
        let mut heap = BinaryHeap::new(&mut places);
        for x in [3, 1, 4, 1, 5] {
            assert!(rt; heap.push(x).is_ok());
        }
        assert_eq!(rt; heap.pop(), Some(5));
        assert_eq!(rt; heap.get(3).copied(), Some(1));
        assert!(rt; heap.get(4).is_none());
        assert!(rt; places == [4, 1, 3, 1, 1]);
    }

    #[test]
    fn room_is_told_in_places(rt: HostRuntime) {
        let mut places = [0u64; 4];
        let mut heap = BinaryHeap::new(&mut places);
        assert!(rt; heap.push(1).is_ok());
        assert!(rt; heap.try_reserve(3).is_ok());
        let refusal = refusal_of(heap.try_reserve(5));
        assert_eq!(rt; refusal, Some(Refusal::by_with(2, 2)));
        let refusal = refusal_of(heap.try_reserve(usize::MAX));
        assert_eq!(rt; refusal, Some(Refusal::by(1)), "2 to the 64th");
        let refusal = refusal_of(heap.try_reserve(usize::MAX - 1));
        assert_eq!(rt;
            refusal.map(|refusal| refusal.number),
            Some(2),
            "2 to the 64th less one"
        );
    }

    #[test]
    fn places_end_at_a_million(rt: HostRuntime) -> Result<(), Fail> {
        let mut memory = vec![in rt.alloc(); 0u64; 1_048_577]?;
        let heap = BinaryHeap::new(memory.as_mut_slice());
        assert_eq!(rt; heap.capacity(), 1_048_576);
        Ok(())
    }

    #[test]
    fn equal_ranks(rt: HostRuntime) -> Result<(), Fail> {
        let first = Clause::new(7, 1, 100).ok().ok_or("refused")?;
        let second = Clause::new(7, 2, 200).ok().ok_or("refused")?;
        let mut places = [first; 2];
        let mut heap = BinaryHeap::new(&mut places);
        assert!(rt; heap.push(first).is_ok() && heap.push(second).is_ok());
        assert_eq!(rt; heap.pop().ok_or("empty")?.number(), 1);
        assert_eq!(rt; heap.pop().ok_or("empty")?.number(), 2);
        Ok(())
    }

    #[test]
    fn pairs_go_by_the_second_member_where_the_first_is_equal(rt: HostRuntime) -> Result<(), Fail> {
        let mut places = [(0u64, Reverse(0u64)); 3];
        let mut heap = BinaryHeap::new(&mut places);
        for x in [(1u64, Reverse(1u64)), (2, Reverse(4)), (2, Reverse(3))] {
            assert!(rt; heap.push(x).is_ok());
        }
        assert_eq!(rt; heap.pop().ok_or("empty")?.1.0, 3);
        assert_eq!(rt; heap.pop().ok_or("empty")?.1.0, 4);
        assert_eq!(rt; heap.pop().ok_or("empty")?.1.0, 1);
        Ok(())
    }

    #[test]
    fn adopt_reads_what_lies_behind_the_row(rt: HostRuntime) {
        let mut places = [0u64; 3];
        let mut heap = BinaryHeap::new(&mut places);
        assert!(rt; heap.push(7).is_ok() && heap.push(9).is_ok());
        let refusal = refusal_of(heap.adopt(4));
        assert_eq!(rt; refusal, Some(Refusal::by(3)));
        assert_eq!(rt; heap.pop(), Some(9));
        heap.clear();
        assert!(rt; heap.adopt(4).is_err());
        assert!(rt; heap.adopt(2).is_ok());
        assert_eq!(rt; heap.get(1).copied(), Some(7), "the place that 7 left");
    }

    #[test]
    fn an_extend_cut_short_leaves_the_rest(rt: HostRuntime) {
        let mut places = [0u64; 2];
        let mut heap = BinaryHeap::new(&mut places);
        let mut supply = Lent::new(&[1u64, 2, 3]);
        let refusal = refusal_of(heap.extend(&mut supply));
        assert_eq!(rt; refusal, Some(Refusal::by_with(2, 2)));
        assert_eq!(rt; supply.next(), Some(3));
        assert!(rt; places == [2, 1]);
    }

    #[test]
    fn an_extend_asks_for_no_more_than_there_is(rt: HostRuntime) {
        let mut places = [0u64; 3];
        let mut heap = BinaryHeap::new(&mut places);
        let mut supply = Counted { left: 2, asked: 0 };
        assert!(rt; heap.extend(&mut supply).is_ok());
        assert_eq!(rt; supply.asked, 2);
        let mut supply = Counted { left: 2, asked: 0 };
        assert!(rt; heap.extend(&mut supply).is_err());
        assert_eq!(rt; supply.asked, 1);
    }

    #[test]
    fn a_refused_append_changes_neither_heap(rt: HostRuntime) {
        let mut places = [0u64; 2];
        let mut others = [0u64; 2];
        let mut heap = BinaryHeap::new(&mut places);
        let mut other = BinaryHeap::new(&mut others);
        assert!(rt; heap.extend(&mut Repeat::new(5u64, 2)).is_ok() && other.push(6).is_ok());
        assert!(rt; heap.append(&mut other).is_err());
        assert_eq!(rt; other.len(), 1);
        assert!(rt; places == [5, 5] && others == [6, 0]);
    }

    #[test]
    fn an_append_puts_the_longer_row_first(rt: HostRuntime) {
        let mut places = [0u64; 5];
        let mut others = [0u64; 3];
        let mut heap = BinaryHeap::new(&mut places);
        let mut other = BinaryHeap::new(&mut others);
        assert!(rt; heap.extend(&mut Lent::new(&[9u64, 5])).is_ok());
        assert!(rt; other.extend(&mut Lent::new(&[8u64, 7, 6])).is_ok());
        assert!(rt; heap.append(&mut other).is_ok());
        assert_eq!(rt; heap.len(), 5);
        assert!(rt; other.is_empty());
        assert!(rt; places == [9, 8, 6, 7, 5] && others == [8, 7, 6]);
    }

    #[test]
    fn a_short_list_is_not_written(rt: HostRuntime) {
        let mut places = [0u64; 3];
        let mut heap = BinaryHeap::new(&mut places);
        assert!(rt; heap.extend(&mut Lent::new(&[4u64, 6, 5])).is_ok());
        let mut list = [1u64; 2];
        assert!(rt; heap.drain(&mut list).is_err());
        assert!(rt; list == [1, 1]);
        heap.retain(&mut Ration::new(2));
        assert!(rt; heap.drain(&mut list).is_ok());
        assert!(rt; heap.is_empty());
        assert!(rt; list == [6, 4]);
    }

    #[test]
    fn a_pop_if_asks_the_keeper_about_the_front(rt: HostRuntime) {
        let mut places = [0u64; 3];
        let mut heap = BinaryHeap::new(&mut places);
        let mut ceiling = Ceiling::new(5u64);
        assert_eq!(rt; heap.pop_if(&mut ceiling), None);
        assert!(rt; heap.extend(&mut Lent::new(&[4u64, 6, 5])).is_ok());
        assert_eq!(rt; heap.pop_if(&mut ceiling), None);
        assert_eq!(rt; heap.pop(), Some(6));
        assert_eq!(rt; heap.pop_if(&mut ceiling), Some(5));
        assert_eq!(rt; heap.len(), 1);
    }

    #[test]
    fn a_refresh_says_once_that_the_front_moved(rt: HostRuntime) {
        let mut places = [5u64, 4, 3, 1, 2];
        let mut heap = BinaryHeap::new(&mut places);
        assert!(rt; heap.adopt(5).is_ok());
        let mut edit = heap.peek_mut();
        assert_eq!(rt; edit.peek().copied(), Some(5));
        assert!(rt; !edit.refresh());
        assert!(rt; edit.set(0).is_ok());
        assert_eq!(rt; edit.peek().copied(), Some(0));
        assert!(rt; edit.refresh());
        assert!(rt; !edit.refresh());
        assert_eq!(rt; edit.close().len(), 5);
        assert!(rt; places == [4, 2, 3, 1, 0]);
    }

    #[test]
    fn an_edits_pop_hands_out_what_was_set(rt: HostRuntime) {
        let mut places = [5u64, 4, 3, 1, 2];
        let mut heap = BinaryHeap::new(&mut places);
        assert!(rt; heap.adopt(5).is_ok());
        let mut edit = heap.peek_mut();
        assert!(rt; edit.set(0).is_ok());
        let (mut place, mut wrote) = (7u64, false);
        let mut heap = edit.pop(&mut place, &mut wrote);
        assert!(rt; wrote && place == 0);
        assert_eq!(rt; heap.len(), 4);
        heap.clear();
        let mut edit = heap.peek_mut();
        let refusal = refusal_of(edit.set(1));
        assert_eq!(rt; refusal, Some(Refusal::by(4)));
        let heap = edit.pop(&mut place, &mut wrote);
        assert!(rt; !wrote && place == 0 && heap.is_empty());
        assert!(rt; places == [4, 2, 3, 1, 2]);
    }

    #[test]
    fn the_checker_names_the_first_position(rt: HostRuntime) {
        assert_eq!(rt; first_out_of_order(&[7u64]), None);
        assert_eq!(rt; first_out_of_order(&[7u64, 7, 5, 7]), None);
        assert_eq!(rt; first_out_of_order(&[7u64, 5, 7, 6, 6]), Some(3));
    }
}
