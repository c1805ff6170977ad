ghost use Rattle.std.specs.Prelude.{◌≡◌, ◌≢◌, ◌↔◌, ◌<◌, [], length, map, slice_get, Some, IsTrue, IfOk, IfErr};
ghost use Rattle.plane_terms.specs.Lists.{Every};
ghost use Rattle.plane_terms.specs.Point.{IsInReach};
ghost use Rattle.plane_terms.specs.Segment.{IsSegment};
ghost use Rattle.plane_terms.specs.Polygon.{IsSimpleList};
ghost use Rattle.plane_terms.specs.Shape.{point_shape, shape_of, place_of, segments_of, ends_of, envelope_of, IsShape};
ghost use Rattle.plane_terms.specs.declared.kind.Kind.TheVariants as kind;
ghost use Rattle.shape.specs.Frames.{AreFrames};
ghost use Rattle.shape.specs.Given.{lines_in, polygons_in, IsCountable};
ghost use Rattle.plane_terms.specs.ShapeFaults.{IsFault, IsFlawless};

use crate::form::{Form, boxed};
use crate::line::{Line, end_of};
use crate::polygon::Polygon;
use crate::same::{are_same_parts, are_same_rings};
use grid_plane::{GridPoint, NoMemory, Rect, Seg};
use plane_terms::{Kind, ShapeFault};
use std::alloc::Global;
use std::marker::Model;

/// The shape of a feature: a point, a line or a polygon, of one or more parts, in grid units. Point, LineString,
/// MultiLineString, Polygon and MultiPolygon in OGC 06-103r4; docs/shapes.md says where a valid polygon differs.
#[derive(Drop)]
pub struct Shape {
    form: Form,
}

impl Model for Shape {
    ghost use Rattle.plane_terms.specs.Shape as terms;

    ghost Value = { terms.Shape };

    ghost use Rattle.shape.specs.Form.{shape_in, IsFormed};

    ghost view = { λ s. shape_in s.form };

    ghost invariant = { λ s. IsFormed s.form };
}

impl Shape {
    /// The shape of a point.
    pub fn point(place: GridPoint) -> Shape
        ensures value { result ≡ point_shape place }
        ensures valid { IsShape result }
    {
        Shape {
            form: Form::Point(place),
        }
    }

    /// The line of these parts, each from its first vertex to its last. Equal neighbours are kept once. `Err` comes exactly
    /// where a fault applies, and names the first; or where memory runs out.
    pub fn line(alloc: Global, parts: Vec<Vec<GridPoint>>) -> Result<Shape, ShapeFault>
        requires { IsCountable (lines_in parts.items) }
        ensures made { IfOk result (λ s. s ≡ shape_of kind.Line (lines_in parts.items)) }
        ensures valid { IfOk result IsShape }
        ensures flawless { IfOk result (λ _. IsFlawless (shape_of kind.Line (lines_in parts.items))) }
        ensures refused { IfErr result (λ fault. IsFault (shape_of kind.Line (lines_in parts.items)) fault) }
    {
        Ok(Shape {
            form: Form::Line(boxed(alloc, Line::of(alloc, parts)?)?),
        })
    }

    /// The polygon of these parts, each a list of rings: the inside is what an odd number of segments lie below of, so neither
    /// the order nor the orientation of rings counts. Equal neighbours are kept once, and last vertices that are equal to the
    /// ring's first are dropped. `Err` comes exactly where a fault applies, and names the first; or where memory runs out.
    pub fn polygon(alloc: Global, parts: Vec<Vec<Vec<GridPoint>>>) -> Result<Shape, ShapeFault>
        requires { IsCountable (polygons_in parts.items) }
        ensures made { IfOk result (λ s. s ≡ shape_of kind.Polygon (polygons_in parts.items)) }
        ensures valid { IfOk result IsShape }
        ensures flawless { IfOk result (λ _. IsFlawless (shape_of kind.Polygon (polygons_in parts.items))) }
        ensures refused { IfErr result (λ fault. IsFault (shape_of kind.Polygon (polygons_in parts.items)) fault) }
    {
        Ok(Shape {
            form: Form::Polygon(boxed(alloc, Polygon::of(alloc, parts)?)?),
        })
    }

    pub fn kind(&self) -> Kind
        ensures value { result ≡ self.now.kind }
        ensures valid { IsShape self.now }
    {
        match &self.form {
            Form::Point(_) => Kind::Point,
            Form::Line(_) => Kind::Line,
            Form::Polygon(_) => Kind::Polygon,
        }
    }

    /// The number of parts; of a point it is 1.
    pub fn part_count(&self) -> usize
        ensures { result ≡ length self.now.parts }
    {
        match &self.form {
            Form::Point(_) => 1,
            Form::Line(line) => line.parts.as_slice().len(),
            Form::Polygon(polygon) => polygon.parts.as_slice().len(),
        }
    }

    /// The place of a point; of a line or a polygon its first vertex.
    pub fn place(&self) -> GridPoint
        ensures value { result ≡ place_of self.now }
        ensures whole { self.now.kind ≡ kind.Point → self.now ≡ point_shape result }
        ensures reach { IsInReach result }
    {
        match &self.form {
            Form::Point(place) => *place,
            Form::Line(line) => line.parts.as_slice()[0][0],
            Form::Polygon(polygon) => polygon.parts.as_slice()[0][0][0],
        }
    }

    /// The parts of a line, each the list of its vertices; of the other kinds there are none.
    pub fn lines(&self) -> &[Vec<GridPoint>]
        ensures parts { self.now.kind ≡ kind.Line → lines_in result.now ≡ self.now.parts }
        ensures none { self.now.kind ≢ kind.Line → result.now ≡ [] }
    {
        match &self.form {
            Form::Line(line) => line.parts.as_slice(),
            _ => &[],
        }
    }

    /// The parts of a polygon, each the list of its rings, a ring the list of its vertices without the first again; of the
    /// other kinds there are none.
    pub fn polygons(&self) -> &[Vec<Vec<GridPoint>>]
        ensures parts { self.now.kind ≡ kind.Polygon → polygons_in result.now ≡ self.now.parts }
        ensures none { self.now.kind ≢ kind.Polygon → result.now ≡ [] }
    {
        match &self.form {
            Form::Polygon(polygon) => polygon.parts.as_slice(),
            _ => &[],
        }
    }

    /// The least rectangle that holds all vertices.
    pub fn env(&self) -> Rect
        ensures { result ≡ envelope_of self.now }
    {
        match &self.form {
            Form::Point(place) => Rect::round(*place),
            Form::Line(line) => line.env,
            Form::Polygon(polygon) => polygon.env,
        }
    }

    /// The segments, part by part and ring by ring: each goes from a vertex to the next, the last of a ring back to the first.
    pub fn segs(&self) -> &[Seg]
        ensures value { result.now ≡ segments_of self.now }
        ensures proper { Every IsSegment result.now }
        ensures valid { IsShape self.now }
    {
        match &self.form {
            Form::Point(_) => &[],
            Form::Line(line) => &line.segs,
            Form::Polygon(polygon) => &polygon.segs,
        }
    }

    /// Of more than 64 segments a rectangle round each block of 32; of fewer there are none.
    pub fn frames(&self) -> &[Rect]
        ensures { AreFrames result.now (segments_of self.now) }
    {
        match &self.form {
            Form::Point(_) => &[],
            Form::Line(line) => line.parts.frames(),
            Form::Polygon(polygon) => polygon.parts.frames(),
        }
    }

    /// The law of the segments: the lower end of each comes before its upper one; those of a polygon meet at ends alone, as a
    /// cutting into columns wants them, and there are some.
    pub fn simple_law(&self)
        ensures proper { Every IsSegment (segments_of self.now) }
        ensures simple { self.now.kind ≡ kind.Polygon → IsSimpleList (segments_of self.now) }
        ensures boundary { self.now.kind ≡ kind.Polygon → segments_of self.now ≢ [] }
    {
        self.segs();
    }

    /// The number of segments; of a point it is 0.
    pub fn seg_count(&self) -> usize
        ensures { result ≡ length (segments_of self.now) }
    {
        self.segs().len()
    }

    /// The segment of this number, from 0.
    pub fn seg(&self, i: usize) -> Seg
        requires { i < length (segments_of self.now) }
        ensures { slice_get (segments_of self.now) i ≡ Some result }
    {
        self.segs()[i]
    }

    /// The number of ends: of a line two for each part, of the others 0.
    pub fn end_count(&self) -> usize
        ensures { result ≡ length (ends_of self.now) }
    {
        match &self.form {
            Form::Line(line) => 2 * line.parts.as_slice().len(),
            _ => 0,
        }
    }

    /// The end of this number, from 0: part by part the first vertex, then the last.
    pub fn end(&self, i: usize) -> GridPoint
        requires { i < length (ends_of self.now) }
        ensures { slice_get (ends_of self.now) i ≡ Some result }
    {
        match &self.form {
            Form::Line(line) => end_of(line.parts.as_slice(), i),
            _ => self.place(),
        }
    }

    /// Whether the shapes are equal: of one kind, with the same vertices in the same rings of the same parts.
    pub fn same(&self, other: &Shape) -> bool
        ensures { IsTrue result ↔ (self.now ≡ other.now) }
    {
        match (&self.form, &other.form) {
            (Form::Point(place), Form::Point(other)) => place == other,
            (Form::Line(line), Form::Line(other)) => {
                are_same_rings(line.parts.as_slice(), other.parts.as_slice())
            }
            (Form::Polygon(polygon), Form::Polygon(other)) => {
                are_same_parts(polygon.parts.as_slice(), other.parts.as_slice())
            }
            _ => false,
        }
    }

    /// An equal shape.
    pub fn try_copy(&self, alloc: Global) -> Result<Shape, NoMemory>
        ensures { IfOk result (λ s. s ≡ self.now) }
    {
        match &self.form {
            Form::Point(place) => Ok(Shape::point(*place)),
            Form::Line(line) => Ok(Shape {
                form: Form::Line(boxed(alloc, line.try_copy(alloc)?)?),
            }),
            Form::Polygon(polygon) => Ok(Shape {
                form: Form::Polygon(boxed(alloc, polygon.try_copy(alloc)?)?),
            }),
        }
    }
}
