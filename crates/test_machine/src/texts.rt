//! Texts of programs that were worked by hand.

use generator::generated;
use std::test::Fail;

/// The text of seed 1 and size 2. The draws are 16838, 5758, 10113, 17515 for the first round, and
/// 31051, 5627, 23010, 7419 for the second.
const TWO_ROUNDS: &str = "data Nil 0;
data Cons 2;
f0 x y = add x y;
m0 = Nil;
f1 x y = case lt x y of { 1 -> f0 x 758; _ -> f0 y 758 };
m1 = Cons (f1 113 515) m0;
f2 x y = mul (f1 627 x) 3;
m2 = Cons (f2 10 419) m1;
main = m2;
";

#[test]
fn two_rounds(rt: HostRuntime) -> Result<(), Fail> {
    let text = generated(rt.alloc(), 1, 2)?;
    assert_eq!(rt; text.as_slice(), TWO_ROUNDS.as_bytes());
    Ok(())
}

#[test]
fn no_round(rt: HostRuntime) -> Result<(), Fail> {
    let text = generated(rt.alloc(), 7, 0)?;
    let want = "data Nil 0;\ndata Cons 2;\nf0 x y = add x y;\nm0 = Nil;\nmain = m0;\n";
    assert_eq!(rt; text.as_slice(), want.as_bytes());
    Ok(())
}
