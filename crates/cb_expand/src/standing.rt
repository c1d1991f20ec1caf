//! Tokens that stand whatever stands behind them.
ghost use Rattle.std.specs.Prelude.{None, IsTrue, OnOk, length, ◌<◌};
ghost use Rattle.cb_expand.specs.declared.mode.Mode.{Mode as Tongue};
ghost use Rattle.cb_expand.specs.Heads.{Named};
ghost use Rattle.cb_expand.specs.inner.Rows.{signs, AreEnds};
ghost use Rattle.cb_expand.specs.inner.Works.{IsWork, Stepped};
ghost use Rattle.cb_expand.specs.inner.Readings.{IsPlainNext};

use crate::reading::stand;
use crate::work::Work;
use cb_paths::NoMemory;

/// Whether the next token of the innermost list is no identifier.
pub(crate) fn is_plain_next(work: &Work) -> bool
    ensures { IsTrue result → IsPlainNext work.now }
{
    let height = work.row.tokens.len();
    if height <= work.floor {
        return false;
    }
    !work.row.tokens[height - 1].kind.is_identifier()
}

/// Lets the next token stand, which is no identifier. Room is made first, so that the token is moved as it lies, whatever its
/// text is: a whole run takes 2 % less time so (`bench/passes --shape conditions`).
#[inline(always)]
fn stand_next(work: &mut Work) -> Result<(), NoMemory>
    requires next { IsPlainNext work.old }
    requires row { AreEnds (signs work.old.row.tokens.items) work.old.row.ends.items }
    ensures stood { OnOk result ((ms : Named) (mode : Tongue) → IsWork (length ms) work.old None
        → Stepped ms mode work.old None work.new None) }
    ensures row { OnOk result (AreEnds (signs work.new.row.tokens.items) work.new.row.ends.items) }
    ensures fewer { OnOk result (length work.new.row.tokens.items < length work.old.row.tokens.items) }
{
    work.done.reserve(1)?;
    let token = work.row.pop();
    work.done.push_reserved(token);
    Ok(())
}

/// Lets the next tokens of the innermost list stand up to its first identifier.
pub(crate) fn stand_plain(work: &mut Work) -> Result<(), NoMemory>
    requires next { IsPlainNext work.old }
    requires row { AreEnds (signs work.old.row.tokens.items) work.old.row.ends.items }
    ensures { OnOk result ((ms : Named) (mode : Tongue) → IsWork (length ms) work.old None
        → Stepped ms mode work.old None work.new None) }
{
    stand_next(work)?;
    'tokens: while is_plain_next(work) {
        stand_next(work)?;
    }
    Ok(())
}
