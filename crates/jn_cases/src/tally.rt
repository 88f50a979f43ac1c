//! Counting cases, and telling those that differ.
ghost use Rattle.std.specs.Prelude.{◌≡◌, ◌≢◌, ◌↔◌, IsTrue, OnOk, All, false};
ghost use Rattle.jn_cases.specs.Cases.{IsUnknown, keys_of};
ghost use Rattle.jn_cases.specs.Counts.{next_count, Agrees, Differs};

use crate::Case;
use std::alloc::{AllocError, Global};

/// The count of a file's cases and of those that differ, and what is to be said of these.
#[derive(Debug, Drop)]
pub struct Tally {
    alloc: Global,
    file: String,
    name: String,
    line: u32,
    /// Whether the open case has compared something.
    pub asked: bool,
    /// Whether the open case is one that differs.
    pub differs: bool,
    pub cases: u64,
    pub differing: u64,
    told: String,
}

impl Tally {
    /// No case yet, of the file with this name.
    pub fn new(alloc: Global, file: &str) -> Result<Tally, AllocError> {
        Ok(Tally {
            alloc,
            file: String::from_str(alloc, file)?,
            name: String::new(alloc),
            line: 0,
            asked: false,
            differs: false,
            cases: 0,
            differing: 0,
            told: String::new(alloc),
        })
    }

    /// Begins a case, which has not differed.
    pub fn begin(&mut self, case: &Case) -> Result<(), AllocError>
        ensures count { OnOk result (self.new.cases ≡ next_count self.old.cases) }
        ensures fresh { OnOk result ((self.new.asked ≡ false) × (self.new.differs ≡ false)) }
        ensures others { self.new.differing ≡ self.old.differing }
    {
        self.name = String::from_str(self.alloc, case.name.as_str())?;
        self.line = case.line;
        self.asked = false;
        self.differs = false;
        self.cases = self.cases.saturating_add(1);
        Ok(())
    }

    /// Says which keys the case may have beside its name. One that has another differs.
    pub fn keys(&mut self, case: &Case, known: &[&str]) -> Result<(), AllocError>
        ensures { ¬ All (λ key. ¬ IsUnknown known.now key) (keys_of case.now)
            → OnOk result (Differs self.old self.new) }
    {
        match case.unknown_key(known) {
            None => Ok(()),
            Some(key) => self.fault("a key that is not known", key),
        }
    }

    /// Compares what was wanted under a key with what came.
    pub fn bytes(&mut self, key: &str, wanted: &[u8], came: &[u8]) -> Result<(), AllocError>
        ensures same { wanted.now ≡ came.now → OnOk result (Agrees self.old self.new) }
        ensures other { wanted.now ≢ came.now → OnOk result (Differs self.old self.new) }
    {
        self.asked = true;
        if wanted == came {
            return Ok(());
        }
        let said = format!(in self.alloc;
            "wanted \"{}\"\n    came   \"{}\"",
            wanted.escape_ascii(),
            came.escape_ascii()
        )?;
        self.fault(key, said.as_str())
    }

    /// Compares the number that was wanted under a key with the one that came.
    pub fn number(&mut self, key: &str, wanted: i64, came: i64) -> Result<(), AllocError>
        ensures same { wanted ≡ came → OnOk result (Agrees self.old self.new) }
        ensures other { wanted ≢ came → OnOk result (Differs self.old self.new) }
    {
        self.asked = true;
        if wanted == came {
            return Ok(());
        }
        let said = format!(in self.alloc; "wanted {wanted}, came {came}")?;
        self.fault(key, said.as_str())
    }

    /// Says of the case what makes it one that differs.
    pub fn fault(&mut self, key: &str, said: &str) -> Result<(), AllocError>
        ensures { OnOk result (Differs self.old self.new) }
    {
        self.asked = true;
        if !self.differs {
            self.differs = true;
            self.differing = self.differing.saturating_add(1);
            let head = format!(in self.alloc; "{}:{}: {}\n", self.file, self.line, self.name)?;
            self.told.push_str(head.as_str())?;
        }
        let text = format!(in self.alloc; "  {key}: {said}\n")?;
        self.told.push_str(text.as_str())
    }

    /// Ends a case. One that compared nothing differs.
    pub fn end(&mut self) -> Result<(), AllocError>
        ensures { self.old.asked ≡ false → OnOk result (Differs self.old self.new) }
    {
        if self.asked {
            return Ok(());
        }
        self.fault("case", "it asks nothing")
    }

    /// Whether no case differs.
    pub fn is_good(&self) -> bool
        ensures { IsTrue result ↔ (self.now.differing ≡ 0) }
    {
        self.differing == 0
    }

    /// What is said of the cases that differ, and the counts in the last line.
    pub fn report(&self) -> Result<String, AllocError> {
        let alloc = self.alloc;
        match self.differing {
            0 => format!(in alloc; "{}: {} cases, none differs\n", self.file, self.cases),
            n => format!(in alloc;
                "{}{}: {} cases, {n} differ\n",
                self.told, self.file, self.cases
            ),
        }
    }
}
