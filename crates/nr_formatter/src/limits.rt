//! What has a limit.
ghost use Rattle.nr_formatter.specs.Limits.{FitsMemory};

use crate::formatter::Formatter;

impl Formatter {
    /// What is stored, the levels and the line are within their limits, whatever was done.
    ///
    /// Proved: What is stored, the levels and the line are never above their limits.
    #[inline]
    pub fn fit_memory(&self)
        ensures { FitsMemory self.now }
    {
        let _charge = self.store.charge();
        let _depth = self.store.depth();
        let _measure = self.line.measure();
    }
}
