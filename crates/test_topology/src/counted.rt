// How many steps a validation takes in the indexes of a topology, as meters count them.
use feature_store::{Kind, Name, Shape};
use grid_index::Meter;
use grid_plane::{GridPoint, Rect};
use rule_core::{RuleRow, Side, Work};
use rule_words::RuleKind;
use rules::PosterRules;
use std::alloc::Global;
use std::test::Fail;
use step_count::Count;
use topo_core::Topology;

fn place(x: i64) -> Result<GridPoint, Fail> {
    Ok(GridPoint::at(x, 0).ok_or("beyond the reach")?)
}

// A thousand wells in a row, a hundred apart, that must be disjoint: the handle k stands at 100 k. All of it is validated.
fn row(alloc: Global, work: &mut Work) -> Result<Topology<PosterRules>, Fail> {
    let mut town = Topology::new(alloc, PosterRules);
    town.add_class(Name::of(b"wells").ok_or("no name")?, Kind::Point)?;
    town.add_rule(RuleRow {
        kind: RuleKind::PointMustBeDisjoint,
        origin: Side {
            class: 1,
            subtype: None,
        },
        dest: None,
    })?;
    for k in 1..=1000i64 {
        town.add(1, Shape::point(place(k.saturating_mul(100))?))?;
    }
    town.validate(Rect::whole(), work)?;
    Ok(town)
}

// A validation round one well that moved looks at few of a thousand.
#[test]
fn a_validation_looks_at_few_of_a_row(rt: HostRuntime) -> Result<(), Fail> {
    let mut work = Work::new();
    let mut near = Count::new();
    let mut framed = Count::new();
    let mut town = row(rt.alloc(), &mut work)?;
    town.change(1, Shape::point(place(101)?))?;
    let window = Rect::round(place(0)?).join(&Rect::round(place(200)?));
    let done = town.validate_counted(window, &mut work, &mut near, &mut framed)?;
    assert_eq!(rt; (done.judged, done.errors, done.dirty), (1, 0, 0));
    let taken = near.count();
    assert!(rt; taken >= 1);
    assert!(rt; taken <= 100);
    assert_eq!(rt; framed.count(), 0);
    Ok(())
}
