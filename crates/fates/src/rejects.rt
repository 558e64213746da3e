//! How many records each code rejected.

ghost use Rattle.std.specs.Prelude.{◌≡◌, ◌+◌, ◌<◌, ◌^◌, ℕ, Some, None, OnOk, OnErr};
ghost use Rattle.fates.specs.Totals.{rejected_by, rejects_of, listed_count};
ghost use Rattle.fates.specs.Rejects.{ListsSome, IsSet, AreSet, AreKept, AreSummed, as_listed, unless_none, as_summed};

use std::alloc::AllocError;
use std::collections::BTreeMap;

/// Counts more records that a code rejected. From then on the code is listed, also where it rejected
/// none. Memory can run out only where it was not listed; the list then stays.
pub(crate) fn count_rejects(
    rejects: &mut BTreeMap<u64, u64>,
    code: u64,
    more: u64,
) -> Result<(), AllocError>
    requires { rejects_of code rejects.old.entries + more < 2 ^ 64 }
    ensures ok { OnOk result (IsSet code (Some (rejects_of code rejects.old.entries + more)) rejects.old.entries rejects.new.entries) }
    ensures err { OnErr result (rejects.new.entries ≡ rejects.old.entries) }
    ensures absent { OnErr result (rejected_by code rejects.old.entries ≡ None) }
{
    let before = rejects.get(&code).copied().unwrap_or(0);
    rejects.insert(code, before + more)?;
    Ok(())
}

/// Takes a code off the list, if it is listed and rejected none.
fn unlist(rejects: &mut BTreeMap<u64, u64>, code: u64)
    ensures { IsSet code (listed_count (rejects_of code rejects.old.entries)) rejects.old.entries rejects.new.entries }
{
    let _rising = rejects.len();
    if rejects.get(&code).copied().unwrap_or(0) == 0 {
        rejects.remove(&code);
    }
}

/// Lists each code of another list. Where memory runs out, some of them are.
fn list_all(rejects: &mut BTreeMap<u64, u64>, others: &BTreeMap<u64, u64>) -> Result<(), AllocError>
    requires { (code : ℕ) → rejects_of code rejects.old.entries < 2 ^ 64 }
    ensures ok { OnOk result (AreSet as_listed others.now.entries rejects.old.entries rejects.new.entries) }
    ensures err { OnErr result (AreKept others.now.entries rejects.old.entries rejects.new.entries) }
{
    let _rising = (rejects.len(), others.len());
    for (code, _) in others {
        count_rejects(rejects, *code, 0)?;
    }
    Ok(())
}

/// Takes each code of another list off the list, if it rejected none.
fn unlist_all(rejects: &mut BTreeMap<u64, u64>, others: &BTreeMap<u64, u64>)
    ensures { AreSet unless_none others.now.entries rejects.old.entries rejects.new.entries }
{
    let _rising = (rejects.len(), others.len());
    for (code, _) in others {
        unlist(rejects, *code);
    }
}

/// Adds the counts of another list, whose codes are listed.
fn count_all(rejects: &mut BTreeMap<u64, u64>, others: &BTreeMap<u64, u64>)
    requires listed { (code : ℕ) → rejected_by code rejects.old.entries ≡ None → rejected_by code others.now.entries ≡ None }
    requires few { (code : ℕ) → rejects_of code rejects.old.entries + rejects_of code others.now.entries < 2 ^ 64 }
    ensures { AreSet as_summed others.now.entries rejects.old.entries rejects.new.entries }
{
    let _rising = (rejects.len(), others.len());
    for (code, more) in others {
        match count_rejects(rejects, *code, *more) {
            Ok(()) => {}
            Err(_) => unreachable!(),
        }
    }
}

/// Adds the counts of another list. The time goes by the length of that one. Where memory runs out,
/// the list stays.
pub(crate) fn sum_rejects(
    rejects: &mut BTreeMap<u64, u64>,
    others: &BTreeMap<u64, u64>,
) -> Result<(), AllocError>
    requires some { ListsSome rejects.old.entries }
    requires others { ListsSome others.now.entries }
    requires few { (code : ℕ) → rejects_of code rejects.old.entries + rejects_of code others.now.entries < 2 ^ 64 }
    ensures ok { OnOk result (AreSummed rejects.old.entries others.now.entries rejects.new.entries) }
    ensures err { OnErr result (rejects.new.entries ≡ rejects.old.entries) }
{
    let _rising = rejects.len();
    match list_all(rejects, others) {
        Ok(()) => {
            count_all(rejects, others);
            Ok(())
        }
        Err(refused) => {
            unlist_all(rejects, others);
            Err(refused)
        }
    }
}
