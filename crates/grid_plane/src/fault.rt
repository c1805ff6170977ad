/// Why four numbers are no rectangle.
#[derive(Clone, Copy, PartialEq, Eq, Debug)]
pub enum RectFault {
    /// The number at this place, from 0, is the first beyond the reach.
    OutOfReach { at: u8 },
    /// A greatest coordinate is below its least one.
    Reversed,
}
