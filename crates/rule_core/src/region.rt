/// Which cells of a polygon: those of its inside, or those of what is neither inside it nor on its boundary.
#[derive(Clone, Copy, PartialEq, Eq, Debug)]
pub enum Region {
    Inside,
    Outside,
}
