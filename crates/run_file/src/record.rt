// A record of a run file. What it holds of elements is a part of the file.
#[derive(Clone, Copy)]
pub enum Record<'a> {
    Push(&'a [u8]),
    Pop,
    Peek,
    PopIf(&'a [u8]),
    Extend(u16, &'a [u8]),
    Repeat(u16, &'a [u8]),
    Retain(&'a [u8]),
    Ration(u16),
    Append,
    Swap,
    Clear,
    Drain,
    Row,
    PeekMut,
    Set(&'a [u8]),
    Refresh,
    EditPop,
    Close,
}
