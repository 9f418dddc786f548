//! A journal with its standing.

use regatta_scores::Standing;
use regatta_tables::Journal;

/// What a watcher is shown: a journal, and its standing (RRS Appendix A).
#[derive(Drop)]
pub struct Sheet {
    pub journal: Journal,
    pub standing: Standing,
}
