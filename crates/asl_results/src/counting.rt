//! How many cases there are, and how many of them failed.
ghost use Rattle.std.specs.Prelude.{◌≡◌, ◌≤◌, ◌+◌, ◌-◌, IfOk};
ghost use Rattle.asl_results.specs.Counted.{all_cases, counts_of, is_failed, passed_in};

use crate::{CaseResult, SuiteResult};
use asl_tree::OutOfMemory;

/// How many cases there are, and how many of them failed.
#[derive(Clone, Copy)]
pub(crate) struct Counts {
    pub(crate) cases: u64,
    pub(crate) failed: u64,
}

impl Counts {
    /// The counts of cases.
    pub(crate) fn of(cases: &[CaseResult]) -> Counts
        ensures { result ≡ counts_of cases.now }
    {
        let failed = cases.iter().filter(|case| case.is_failed()).count();
        Counts {
            cases: cases.len() as u64,
            failed: failed as u64,
        }
    }

    /// The counts of the cases of all suites. Where a `u64` doesn't count them, no memory has room for a report of them.
    pub(crate) fn of_all(suites: &[SuiteResult]) -> Result<Counts, OutOfMemory>
        ensures counts { IfOk result (λ counts. counts ≡ counts_of (all_cases suites.now)) }
        ensures within { IfOk result (λ counts. counts.failed ≤ counts.cases) }
        ensures passed { IfOk result
            (λ counts. counts.cases - counts.failed ≡ passed_in (all_cases suites.now)) }
    {
        let mut all = Counts {
            cases: 0,
            failed: 0,
        };
        for suite in suites {
            all = all.and(Counts::of(&suite.cases))?;
        }
        Ok(all)
    }

    /// These and others, where a `u64` counts them.
    fn and(self, other: Counts) -> Result<Counts, OutOfMemory>
        ensures { IfOk result
            (λ counts. (counts.cases ≡ self.cases + other.cases)
            × (counts.failed ≡ self.failed + other.failed)) }
    {
        let cases = self.cases.checked_add(other.cases).ok_or(OutOfMemory)?;
        let failed = self.failed.checked_add(other.failed).ok_or(OutOfMemory)?;
        Ok(Counts { cases, failed })
    }

    /// How many cases passed.
    pub(crate) fn passed(self) -> u64
        requires { self.failed ≤ self.cases }
        ensures { result ≡ self.cases - self.failed }
    {
        self.cases - self.failed
    }
}

impl CaseResult {
    /// Whether the run differs from what is expected.
    pub(crate) fn is_failed(&self) -> bool
        ensures { result ≡ is_failed self.now }
    {
        self.difference.is_some()
    }
}
