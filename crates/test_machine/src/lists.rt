//! Lists, as they change.

use seq::{Seq, Text};
use std::alloc::{AllocError, Global};
use std::process::Abort;

/// 5 and 6, then 7, and then a list of 8.
fn grown(alloc: Global) -> Result<Seq<u32>, AllocError> {
    let mut more = Seq::new(alloc);
    more.push(8)?;
    let mut list = Seq::from_vec(vec![in alloc; 5, 6]?);
    list.push(7)?;
    list.append(more)?;
    Ok(list)
}

/// A list of 5, 6, 7 and 8 becomes one of 9 and 7.
fn changes(rt: &impl Abort, list: &mut Seq<u32>) {
    assert!(rt; !list.is_empty());
    assert_eq!(rt; list.as_slice(), [5, 6, 7, 8].as_slice());
    if list.len() > 2 {
        list.set(1, 9);
        assert_eq!(rt; list.remove(0), 5);
    }
    assert_eq!(rt; list.pop(), Some(8));
    assert_eq!(rt; list.get(0), Some(&9));
    assert_eq!(rt; list.get(2), None);
}

#[test]
fn a_list_changes_as_a_list_does(rt: HostRuntime) -> Result<(), AllocError> {
    let mut list = grown(rt.alloc())?;
    changes(&rt, &mut list);
    let copied = list.copied(rt.alloc())?;
    assert_eq!(rt; copied.into_vec().as_slice(), [9, 7].as_slice());
    Ok(())
}

#[test]
fn a_text_is_the_list_of_its_bytes(rt: HostRuntime) -> Result<(), AllocError> {
    let text: Text = Seq::from_slice(rt.alloc(), b"Cons")?;
    assert_eq!(rt; text.as_slice(), b"Cons".as_slice());
    Ok(())
}
