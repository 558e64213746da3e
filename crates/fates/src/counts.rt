//! How many records met which fate.

ghost use Rattle.std.specs.Prelude.{◌≡◌, ◌+◌, ◌<◌, ◌^◌, ◌++◌, ◌∷◌, [], List, OnOk, OnErr, unwrap_or};
ghost use Rattle.fates.specs.declared.fate.Fate.{Fate as Met};
ghost use Rattle.fates.specs.Totals.{AreCounts};

use crate::fate::Fate;
use crate::rejects::{count_rejects, sum_rejects};
use std::alloc::{AllocError, Global};
use std::collections::BTreeMap;
use std::marker::Model;

/// How many records there are, how many of them no program ran on, how many were kept, and how many
/// each code rejected. Its type keeps that these are the counts of some list of fates.
#[derive(Drop)]
pub struct Counts {
    records: u64,
    unprogrammed: u64,
    kept: u64,
    rejects: BTreeMap<u64, u64>,
}

impl Model for Counts {
    ghost use Rattle.std.specs.Prelude.{List};
    ghost use Rattle.fates.specs.declared.fate.Fate.{Fate};
    ghost use Rattle.fates.specs.Totals.{Totals, totals, AreCounts};

    ghost Value = { Totals };

    ghost view = { λ c. totals c.records c.unprogrammed c.kept c.rejects.entries };

    ghost invariant = { λ c. (fates : List Fate) × AreCounts fates (totals c.records c.unprogrammed c.kept c.rejects.entries) };
}

impl Counts {
    /// Of no record.
    pub fn new(alloc: Global) -> Counts
        ensures counts { AreCounts [] result }
        ensures records { result.records ≡ 0 }
    {
        Counts {
            records: 0,
            unprogrammed: 0,
            kept: 0,
            rejects: BTreeMap::new(alloc),
        }
    }

    /// How many records there are.
    pub fn records(&self) -> u64
        ensures { result ≡ self.now.records }
    {
        self.records
    }

    /// How many records have no mark before them.
    pub fn unprogrammed(&self) -> u64
        ensures { result ≡ self.now.unprogrammed }
    {
        self.unprogrammed
    }

    /// How many records were kept.
    pub fn kept(&self) -> u64
        ensures { result ≡ self.now.kept }
    {
        self.kept
    }

    /// How many records each code rejected, by rising code. A code that rejected none is not listed.
    pub fn rejects(&self) -> &BTreeMap<u64, u64>
        ensures { result.now.entries ≡ self.now.rejects }
    {
        &self.rejects
    }

    /// Counts one more record. Where memory runs out, the counts stay.
    #[tactic(auto, using(crate::proofs::CountLaws::unprogrammed_more, crate::proofs::CountLaws::kept_more, crate::proofs::CountLaws::rejected_more, crate::proofs::CountLaws::few_rejects))]
    pub fn add(&mut self, fate: Fate) -> Result<(), AllocError>
        requires { self.old.records < 2 ^ 63 }
        ensures counts { OnOk result ((fates : List Met) → AreCounts fates self.old → AreCounts (fates ++ fate ∷ []) self.new) }
        ensures records { OnOk result (self.new.records ≡ self.old.records + 1) }
        ensures err { OnErr result (self.new ≡ self.old) }
    {
        match fate {
            Fate::Unprogrammed => {
                self.unprogrammed += 1;
                self.records += 1;
                Ok(())
            }
            Fate::Kept => {
                self.kept += 1;
                self.records += 1;
                Ok(())
            }
            Fate::Rejected(code) => {
                count_rejects(&mut self.rejects, code, 1)?;
                self.records += 1;
                Ok(())
            }
        }
    }

    /// Counts the records of others beside its own. The time goes by the reject codes of the others.
    /// Where memory runs out, the counts stay.
    pub fn add_all(&mut self, others: &Counts) -> Result<(), AllocError>
        requires { self.old.records + others.now.records < 2 ^ 63 }
        ensures counts { OnOk result ((before here : List Met) → AreCounts before self.old → AreCounts here others.now → AreCounts (before ++ here) self.new) }
        ensures records { OnOk result (self.new.records ≡ self.old.records + others.now.records) }
        ensures err { OnErr result (self.new ≡ self.old) }
    {
        sum_rejects(&mut self.rejects, &others.rejects)?;
        self.records += others.records;
        self.unprogrammed += others.unprogrammed;
        self.kept += others.kept;
        Ok(())
    }
}
