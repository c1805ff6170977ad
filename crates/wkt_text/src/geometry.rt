use grid_plane::GridPoint;

/// What a text writes, each ring with its last position.
#[derive(Drop)]
pub enum Geometry {
    Point(GridPoint),
    Line(Vec<GridPoint>),
    /// The parts of a line.
    Lines(Vec<Vec<GridPoint>>),
    /// The rings of a polygon.
    Polygon(Vec<Vec<GridPoint>>),
    /// The parts of a polygon, each of rings.
    Polygons(Vec<Vec<Vec<GridPoint>>>),
}
