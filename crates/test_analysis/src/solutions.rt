// Small programs, whose solutions were worked out by hand.

use flow_system::system::system;
use flow_system::{Place, readers, set_number_at};
use grin_syntax::program::{Grin, ProcId, Site, TagId, VarId};
use grin_text::{ReadError, program};
use points_to::solve;
use std::alloc::Global;
use std::test::Fail;
use worked_texts::TAKE_TWICE_TRANSLATED;

const NIL: TagId = TagId(1);

const CONS: TagId = TagId(2);

// k a b = a; app f x = f x; main = let n = Nil; f = k; g = app f n in app g n
//
// The numbers of the variables are 0 and 1 in `k`, 2 to 4 in `app` and 5 to 7 in `start`; those of
// its sites are 0 to 2.
const PARTIAL: &str = "\
tags CInt/1 CNil/0 Fapp/2 P2k/0 P1k/1

k v0 v1 =
  eval v0

app v0 v1 =
  v2 <- eval v0
  apply v2 v1

start =
  store
    v0 = (CNil)
    v1 = (P2k)
    v2 = (Fapp v1 v0)
  call app v2 v0
";

pub(crate) fn takes(alloc: Global) -> Result<Grin, ReadError> {
    let text = format!(in alloc;
        "tags CInt/1 CNil/0 CCons/2 Ftake/1 Fmain/0 P1take/0\n{TAKE_TWICE_TRANSLATED}"
    )?;
    program(alloc, text.as_str())
}

pub(crate) fn partial(alloc: Global) -> Result<Grin, ReadError> {
    program(alloc, PARTIAL)
}

#[test]
fn a_list_taken_twice(rt: HostRuntime) -> Result<(), Fail> {
    let alloc = rt.alloc();
    let flow = solve(alloc, &system(alloc, &takes(alloc)?)?)?;
    let there = [Site(1), Site(3), Site(4), Site(5)];
    assert_eq!(rt; flow.locs_of(VarId(0)), there.as_slice());
    let all = [NIL, CONS, TagId(3)];
    assert_eq!(rt; flow.tags_at(Site(1)), all.as_slice());
    assert_eq!(rt; flow.tags_at(Site(3)), [NIL].as_slice());
    assert_eq!(rt; flow.tags_at(Site(4)), [CONS].as_slice());
    assert_eq!(rt; flow.tags_at(Site(5)), all.as_slice());
    assert_eq!(rt; flow.tags_met(VarId(0)), all.as_slice());
    assert_eq!(rt; flow.tags_met(VarId(14)).len(), 0);
    assert_eq!(rt; flow.nodes_of(VarId(1)), [NIL, CONS].as_slice());
    assert_eq!(rt; flow.result_of(ProcId(0)), [NIL, CONS].as_slice());
    assert_eq!(rt; flow.result_of(ProcId(1)), [NIL, CONS].as_slice());
    assert_eq!(rt; flow.result_of(ProcId(2)), [NIL].as_slice());
    assert!(rt; flow.holds_number(VarId(14)));
    assert!(rt; !flow.holds_number(VarId(0)));
    assert_eq!(rt; flow.tags_at(Site(99)).len(), 0);
    Ok(())
}

#[test]
fn a_function_given_one_argument_at_a_time(rt: HostRuntime) -> Result<(), Fail> {
    let alloc = rt.alloc();
    let flow = solve(alloc, &system(alloc, &partial(alloc)?)?)?;
    // The tag with one argument missing comes to the delayed call by its update alone.
    let updated = [NIL, TagId(2), TagId(4)];
    assert_eq!(rt; flow.tags_at(Site(2)), updated.as_slice());
    let functions = [NIL, TagId(3), TagId(4)];
    assert_eq!(rt; flow.nodes_of(VarId(4)), functions.as_slice());
    assert_eq!(rt; flow.result_of(ProcId(1)), [NIL, TagId(4)].as_slice());
    assert_eq!(rt; flow.result_of(ProcId(0)), [NIL].as_slice());
    assert_eq!(rt; flow.locs_of(VarId(0)), [Site(0)].as_slice());
    assert_eq!(rt; flow.locs_of(VarId(1)), [Site(0)].as_slice());
    assert_eq!(rt; flow.locs_of(VarId(2)), [Site(1), Site(2)].as_slice());
    Ok(())
}

// Inclusion 0 is that of `k`, 1 to 3 those of `app`, 4 to 12 three for each cell of `start` and 13
// and 14 those of its call. The second parameter of `k` is named by none.
#[test]
fn sets_and_their_readers(rt: HostRuntime) -> Result<(), Fail> {
    let alloc = rt.alloc();
    let program = partial(alloc)?;
    let inclusions = system(alloc, &program)?;
    let rows: [(Place, u32, &[u32]); 8] = [
        (Place::Var(0), 0, &[0]),
        (Place::Result(0), 1, &[]),
        (Place::Var(4), 3, &[2, 3]),
        (Place::Var(3), 4, &[2, 3]),
        (Place::Result(1), 5, &[14]),
        (Place::Var(5), 6, &[11, 13]),
        (Place::Site(2), 11, &[12]),
        (Place::Result(2), 12, &[]),
    ];
    for (place, set, read) in rows {
        assert_eq!(rt; set_number_at(&inclusions, place), Some(set));
        assert_eq!(rt; readers(&inclusions, set), read);
    }
    assert!(rt; set_number_at(&inclusions, Place::Var(1)).is_none());
    assert_eq!(rt; readers(&inclusions, 13).len(), 0);
    Ok(())
}
