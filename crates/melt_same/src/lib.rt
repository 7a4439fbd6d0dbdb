//! What tests compare by. An `assert_eq!` is proved anew wherever it stands, with all that it would print; this one function is
//! proved once, and a call of it costs next to nothing.
#![tactic(auto)]

ghost use Rattle.std.specs.Prelude.{◌≡◌, ◌↔◌, true, IsOk};

use std::fmt::Debug;
use std::test::Fail;

/// Fails where what was got is not what was wanted, and shows both. In a table both stand beside the row that they are of, as in
/// `same((row, got), (row, want))?`, so that the row is shown too.
pub fn same<T: PartialEq + Debug + Drop>(got: T, want: T) -> Result<(), Fail>
    ensures { IsOk result ↔ T.eq got want ≡ true }
{
    if got == want {
        Ok(())
    } else {
        Err(Fail::new(format_args!("\n  got: {got:?}\n want: {want:?}")))
    }
}

#[cfg(test)]
mod tests {
    use super::*;

    #[test]
    fn what_is_the_same_passes() -> Result<(), Fail> {
        same(Some(1), Some(1))?;
        same([1, 2].as_slice(), [1, 2].as_slice())
    }
}
