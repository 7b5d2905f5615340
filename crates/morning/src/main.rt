// A morning on the dock: the standing clauses are taken in, others arrive, the one in front is shown
// as it changes, those above a rank are withdrawn, the front is corrected, and at the end all are
// handed out.
#![tactic(auto)]

ghost use Rattle.std.specs.Prelude.{◌≡◌, [], length, IfOk};
ghost use Rattle.elements.specs.Clauses.{made, refuses_clause, by_rank};
ghost use Rattle.elements.specs.Refusals.{told};
ghost use Rattle.elements.specs.Refusals.Answer.{accepted};
ghost use Rattle.heap_model.specs.Calls.{front};
ghost use Rattle.heap_model.specs.Faults.{refuses_heap};
ghost use Rattle.heap_model.specs.Edits.{opened, front_set, set_answer, settled};
ghost use Rattle.binary_heap.specs.Heaps.{held};
ghost use Rattle.morning.specs.Arrivals.{refuses_arrival, arrival_answer, arrived, number_of, standing_clauses};
ghost use Rattle.morning.specs.declared.ArrivalFault.TheVariants.{Clause as OfClause, Heap as OfHeap};

use binary_heap::BinaryHeap;
use elements::clause::{Clause, ClauseFault};
use elements::refusal::{Fault, Refusal};
use heap_model::fault::HeapFault;
use keepers::ceiling::Ceiling;
use std::{fmt, io};
use supplies::lent::Lent;

// Clauses of a higher rank are withdrawn at noon.
const NOON_RANK: u16 = 7;

// rank, number, discount in per mille: a triple, since only `Clause::new` makes a clause
const ARRIVALS: [(u16, u32, u16); 7] = [
    (3, 101, 50),
    (7, 102, 120),
    (5, 103, 80),
    (7, 104, 200),
    (9, 105, 1_250),
    (8, 106, 150),
    (6, 107, 30),
];

// Why an arriving clause was turned away.
#[derive(Clone, Copy, Debug, PartialEq, Eq)]
enum ArrivalFault {
    Clause(ClauseFault),
    Heap(HeapFault),
}

// By hand, so that a clause can say which case a `?` makes.
impl From<ClauseFault> for ArrivalFault {
    ghost from_gives = { λ fault r. r ≡ OfClause fault };

    fn from(fault: ClauseFault) -> ArrivalFault {
        ArrivalFault::Clause(fault)
    }
}

// By hand, so that a clause can say which case a `?` makes.
impl From<HeapFault> for ArrivalFault {
    ghost from_gives = { λ fault r. r ≡ OfHeap fault };

    fn from(fault: HeapFault) -> ArrivalFault {
        ArrivalFault::Heap(fault)
    }
}

impl Fault for ArrivalFault {
    ghost refuses = { refuses_arrival };

    fn refusal(&self) -> Refusal {
        match self {
            ArrivalFault::Clause(fault) => fault.refusal(),
            ArrivalFault::Heap(fault) => fault.refusal(),
        }
    }
}

impl fmt::Display for ArrivalFault {
    fn fmt<W: fmt::Write>(&self, f: &mut fmt::Formatter<W>) -> fmt::Result {
        let Refusal { number, carries } = self.refusal();
        match carries {
            Some(missing) => write!(f, "refused by {number}, places missing: {missing}"),
            None => write!(f, "refused by {number}"),
        }
    }
}

// Takes in a clause of this rank, number and discount.
fn arrive(heap: &mut BinaryHeap<'_, Clause>, arrival: (u16, u32, u16)) -> Result<(), ArrivalFault>
    ensures answer { told refuses_arrival result ≡ arrival_answer (made arrival.0 arrival.1 arrival.2) (held heap.old) }
    ensures heap { held heap.new ≡ arrived (made arrival.0 arrival.1 arrival.2) (held heap.old) }
{
    let (rank, number, discount) = arrival;
    heap.push(Clause::new(rank, number, discount)?)?;
    Ok(())
}

fn front_number(heap: &BinaryHeap<'_, Clause>) -> Option<u32>
    ensures { result ≡ number_of (front (held heap.now).row) }
{
    heap.peek().map(|clause| clause.number())
}

// Shows the front if it is another than the one shown before; answers which it is.
fn show_front(
    rt: &HostRuntime,
    heap: &BinaryHeap<'_, Clause>,
    shown: Option<u32>,
) -> io::Result<Option<u32>>
    ensures { IfOk result (λ number. number ≡ number_of (front (held heap.now).row)) }
{
    let front = front_number(heap);
    if let Some(number) = front
        && front != shown
    {
        println!(rt; "  in front now: clause {number}")?;
    }
    Ok(front)
}

// Hands all clauses out, the front first; answers how many there were.
#[tactic(auto, using(crate::proofs::Counts::counts), unfolding(heap_model::specs::Calls::popped))]
fn hand_out(rt: &HostRuntime, heap: &mut BinaryHeap<'_, Clause>) -> io::Result<usize>
    ensures { IfOk result (λ count. (count ≡ length (held heap.old).row) × ((held heap.new).row ≡ [])) }
{
    let mut count = 0;
    'out: while let Some(clause) = heap.pop() {
        let rank = clause.rank();
        let number = clause.number();
        let discount = clause.discount();
        println!(rt; "handed out: clause {number} of rank {rank}, {discount} per mille")?;
        count += 1;
    }
    Ok(count)
}

// The clauses that hold on every day.
fn standing() -> Result<[Clause; 3], ClauseFault>
    ensures { told refuses_clause result ≡ accepted standing_clauses }
{
    Ok([
        Clause::new(4, 1, 40)?,
        Clause::new(1, 2, 10)?,
        Clause::new(2, 3, 20)?,
    ])
}

// Writes another clause over the front, if there is one, and puts the row in order.
fn correct(
    heap: BinaryHeap<'_, Clause>,
    clause: Clause,
) -> (BinaryHeap<'_, Clause>, Result<(), HeapFault>)
    ensures heap { held result.0 ≡ settled by_rank (front_set clause (opened (held heap.entry))) }
    ensures answer { told refuses_heap result.1 ≡ set_answer (opened (held heap.entry)) }
{
    let mut edit = heap.peek_mut();
    let answer = edit.set(clause);
    (edit.close(), answer)
}

fn main(rt: HostRuntime) -> io::Result<()> {
    let (Ok(standing), Ok(noon), Ok(lowered)) = (
        standing(),
        Clause::new(NOON_RANK, 0, 0),
        Clause::new(4, 102, 60),
    ) else {
        return rt.println("the day has no clauses");
    };
    let mut places = [noon; 8];
    let mut heap = BinaryHeap::new(&mut places);
    match heap.extend(&mut Lent::new(&standing)) {
        Ok(count) => println!(rt; "{count} standing clauses taken in")?,
        Err(fault) => {
            let fault = ArrivalFault::from(fault);
            println!(rt; "standing clauses: {fault}")?;
        }
    }
    let mut shown = show_front(&rt, &heap, None)?;
    for arrival in ARRIVALS {
        let (rank, number, _) = arrival;
        match arrive(&mut heap, arrival) {
            Ok(()) => println!(rt; "clause {number} of rank {rank}: accepted")?,
            Err(fault) => println!(rt; "clause {number} of rank {rank}: {fault}")?,
        }
        shown = show_front(&rt, &heap, shown)?;
    }
    heap.retain(&mut Ceiling::new(noon));
    let left = heap.len();
    println!(rt; "noon: {left} clauses left, of rank {NOON_RANK} or less")?;
    shown = show_front(&rt, &heap, shown)?;
    let (mut heap, corrected) = correct(heap, lowered);
    if corrected.is_ok() {
        println!(rt; "the front was corrected, and is of rank 4 now")?;
    }
    show_front(&rt, &heap, shown)?;
    let count = hand_out(&rt, &mut heap)?;
    println!(rt; "{count} clauses handed out")
}
