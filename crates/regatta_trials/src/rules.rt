//! Series rules.

use regatta_terms::{Absent, Rules};

/// The rules of a series whose instructions say nothing else.
pub fn default_rules() -> Rules {
    Rules::new(Absent::A52, None, &[2], false).unwrap()
}

/// The default rules, with places by corrected time (RRS A3).
pub fn handicap_rules() -> Rules {
    Rules::new(Absent::A52, None, &[2], true).unwrap()
}
