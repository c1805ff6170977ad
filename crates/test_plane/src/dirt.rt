// Dirty areas that a window is cut out of.
use crate::given::rect;
use dirty_area::Dirt;
use std::test::Fail;

// The window's border stays dirty where the dirt goes on beyond it, and the dirt that was cut is as it was.
#[test]
fn the_windows_border_stays_dirty(rt: HostRuntime) -> Result<(), Fail> {
    let alloc = rt.alloc();
    let mut dirt = Dirt::new(alloc);
    dirt.add(rect(5, 5, 15, 15)?)?;
    dirt.add(rect(6, 6, 7, 7)?)?;
    let window = rect(0, 0, 10, 20)?;
    let whole = dirt.cut(alloc, &window)?.into_whole();
    assert_eq!(rt; dirt.len(), 0);
    assert_eq!(rt; whole.len(), 1);
    assert!(rt; whole.meets(&rect(5, 5, 6, 6)?));
    dirt = whole;
    let left = dirt.cut(alloc, &window)?.into_left();
    assert!(rt; !left.meets(&rect(0, 0, 9, 20)?));
    assert!(rt; left.meets(&rect(0, 0, 10, 5)?));
    assert!(rt; left.meets_part(&window, &rect(10, 15, 20, 20)?));
    assert!(rt; !left.meets_part(&window, &rect(11, 15, 20, 20)?));
    Ok(())
}
