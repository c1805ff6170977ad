// The report of two lots that overlap, by hand; and of the same once the error is an exception.
use grid_plane::{Name, Rect};
use report_text::push_report;
use rule_core::{RuleRow, Side, Work};
use rule_words::RuleKind;
use rules::PosterRules;
use shape::Kind;
use std::alloc::Global;
use std::num::NonZeroU32;
use std::test::Fail;
use topo_core::{Key, Topology};
use wkt_text::read_wkt;

const ERROR: &[u8] = b"rule,kind,subject,other,extent,mark,x0,y0,x1,y1
1,polygon_must_not_overlap,1,2,cells,error,5,5,10,10
";

const EXCEPTION: &[u8] = b"rule,kind,subject,other,extent,mark,x0,y0,x1,y1
1,polygon_must_not_overlap,1,2,cells,exception,5,5,10,10
";

fn two_lots(alloc: Global) -> Result<Topology<PosterRules>, Fail> {
    let mut topology = Topology::new(alloc, PosterRules);
    let lots = topology.add_class(Name::of(b"lots").ok_or("no name")?, Kind::Polygon)?;
    topology.add_rule(RuleRow {
        kind: RuleKind::PolygonMustNotOverlap,
        origin: Side {
            class: lots,
            subtype: None,
        },
        dest: None,
    })?;
    let first = read_wkt(alloc, b"POLYGON ((0 0, 10 0, 10 10, 0 10, 0 0))").ok();
    topology.add(lots, first.ok_or("no shape")?)?;
    let second = read_wkt(alloc, b"POLYGON ((5 5, 15 5, 15 15, 5 15, 5 5))").ok();
    topology.add(lots, second.ok_or("no shape")?)?;
    topology.validate(Rect::whole(), &mut Work::new())?;
    Ok(topology)
}

#[test]
fn the_report_of_two_lots(rt: HostRuntime) -> Result<(), Fail> {
    let alloc = rt.alloc();
    let mut topology = two_lots(alloc)?;
    let mut text = Vec::new(alloc);
    push_report(alloc, &mut text, topology.rules(), topology.errors())?;
    assert_eq!(rt; text.as_slice(), ERROR);
    let key = Key {
        rule: 1,
        subject: 1,
        other: NonZeroU32::new(2),
    };
    topology.mark(key, true)?;
    text.clear();
    push_report(alloc, &mut text, topology.rules(), topology.errors())?;
    assert_eq!(rt; text.as_slice(), EXCEPTION);
    Ok(())
}
