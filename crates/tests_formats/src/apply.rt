// Groups applied to the pages of a store.
ghost use Rattle.std.specs.Prelude.{IfOk};
ghost use Rattle.redo_apply.specs.Fits.{ArePagesOf};
ghost use Rattle.model_base.specs.{default_shape};

use crate::groups::group;
use model_base::Shape;
use model_log::Group;
use redo_apply::Pages;
use redo_lsn::NoMemory;
use redo_record::Fits;
use std::alloc::Global;

/// Applies a group where it fits the store, and says whether it does.
fn apply_fitting(pages: &mut Pages, group: &Group, end: u64, shape: &Shape) -> bool
    requires { ArePagesOf shape.now pages.old }
    ensures { ArePagesOf shape.now pages.new }
{
    let fits = group.fits(shape);
    if fits {
        pages.apply(group, end);
    }
    fits
}

// Four records: three on page 1, and one on page 3.
const FOUR: &str = "init 1 1 + num 2 1 1 40 0x0304 + text 1 1 4086 0102 + num 8 1 3 100 7";

/// Blank pages of a store of the default shape, but for two.
fn two_put(alloc: Global) -> Result<Pages, NoMemory>
    ensures { IfOk result (ArePagesOf default_shape) }
{
    let mut pages = Pages::blank(alloc, &Shape::default_shape())?;
    pages.put(1, 90, &[5; 4050]);
    pages.put(2, 80, &[6; 4050]);
    Ok(pages)
}

/// Whether the first four pages have these lsns.
fn has_lsns(pages: &Pages, lsns: [u64; 4]) -> bool {
    4 <= pages.len() && [pages.lsn(0), pages.lsn(1), pages.lsn(2), pages.lsn(3)] == lsns
}

/// Whether a page has these user bytes there.
fn has_at(pages: &Pages, page: u32, at: usize, bytes: &[u8]) -> bool {
    if page as usize >= pages.len() {
        return false;
    }
    let user = pages.user_bytes(page);
    at <= user.len() && user[at..].starts_with(bytes)
}

#[test]
fn a_group_is_applied_in_order(rt: HostRuntime) {
    let shape = Shape::default_shape();
    let mut pages = two_put(rt.alloc()).expect(&rt, "no memory");
    assert!(rt; pages.len() == 8);
    assert!(rt; apply_fitting(&mut pages, &group(&rt, FOUR), 9_000, &shape));
    assert!(rt; has_lsns(&pages, [0, 9_000, 80, 9_000]));
    assert!(rt; has_at(&pages, 1, 0, &[0, 0, 3, 4, 0]) && has_at(&pages, 1, 4_047, &[0, 1, 2]));
    assert!(rt; has_at(&pages, 2, 0, &[6; 4050]));
    assert!(rt; has_at(&pages, 3, 61, &[0, 0, 0, 0, 0, 0, 0, 0, 7, 0]));
}
