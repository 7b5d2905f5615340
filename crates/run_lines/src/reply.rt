// What an accepted record answers. Elements stand at the front of a lent list, so that no reply owns memory.
#[derive(Clone, Copy)]
pub enum Reply<T> {
    Done,
    Element(Option<T>),
    Count(usize),
    Moved(bool),
    Elements(usize),
}
