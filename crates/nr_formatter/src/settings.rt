//! The requests that only set, one under each name. (CSTR 54, request reference and index.)
ghost use Rattle.std.specs.Prelude.{◌≡◌};
ghost use Rattle.nr_formatter.specs.Settings.{ad, ce, fi, ft, hy, in_, lc, ll, lt, na, nf, nh, ns, pc, pl, po, rs, ta, tc, ti, ul, vs};

use crate::formatter::Formatter;
use crate::tasks::Task;

impl Formatter {
    /// `.ad c`: lines are adjusted.
    pub(crate) fn ad(&mut self)
        ensures { self.new ≡ ad self.old }
    {
        self.settings.filling.ad(self.reader.line());
        self.task = Task::Read;
    }

    /// `.ce N`: lines are centred.
    pub(crate) fn ce(&mut self)
        ensures { self.new ≡ ce self.old }
    {
        self.settings
            .filling
            .ce(self.reader.line(), self.settings.pages.spacing);
        self.task = Task::Read;
    }

    /// `.fi`: lines are filled.
    pub(crate) fn fi(&mut self)
        ensures { self.new ≡ fi self.old }
    {
        self.settings.filling.fi();
        self.task = Task::Read;
    }

    /// `.na`: lines are not adjusted.
    pub(crate) fn na(&mut self)
        ensures { self.new ≡ na self.old }
    {
        self.settings.filling.na();
        self.task = Task::Read;
    }

    /// `.nf`: lines are not filled.
    pub(crate) fn nf(&mut self)
        ensures { self.new ≡ nf self.old }
    {
        self.settings.filling.nf();
        self.task = Task::Read;
    }

    /// `.ft f`: the font.
    pub(crate) fn ft(&mut self)
        ensures { self.new ≡ ft self.old }
    {
        self.settings
            .fonts
            .ft(self.reader.line(), self.reader.long_names());
        self.task = Task::Read;
    }

    /// `.ul N`: lines are underlined.
    pub(crate) fn ul(&mut self)
        ensures { self.new ≡ ul self.old }
    {
        self.settings
            .fonts
            .ul(self.reader.line(), self.settings.pages.spacing);
        self.task = Task::Read;
    }

    /// `.hy N`: words are hyphenated.
    pub(crate) fn hy(&mut self)
        ensures { self.new ≡ hy self.old }
    {
        self.settings
            .hyphenation
            .hy(self.reader.line(), self.settings.pages.spacing);
        self.task = Task::Read;
    }

    /// `.nh`: words are not hyphenated.
    pub(crate) fn nh(&mut self)
        ensures { self.new ≡ nh self.old }
    {
        self.settings.hyphenation.nh();
        self.task = Task::Read;
    }

    /// `.in ±N`: the indent.
    pub(crate) fn in_(&mut self)
        ensures { self.new ≡ in_ self.old }
    {
        self.settings
            .indents
            .in_(self.reader.line(), self.settings.pages.spacing);
        self.task = Task::Read;
    }

    /// `.ll ±N`: the line length.
    pub(crate) fn ll(&mut self)
        ensures { self.new ≡ ll self.old }
    {
        self.settings
            .indents
            .ll(self.reader.line(), self.settings.pages.spacing);
        self.task = Task::Read;
    }

    /// `.lt ±N`: the title length.
    pub(crate) fn lt(&mut self)
        ensures { self.new ≡ lt self.old }
    {
        self.settings
            .indents
            .lt(self.reader.line(), self.settings.pages.spacing);
        self.task = Task::Read;
    }

    /// `.po ±N`: the page offset.
    pub(crate) fn po(&mut self)
        ensures { self.new ≡ po self.old }
    {
        self.settings
            .indents
            .po(self.reader.line(), self.settings.pages.spacing);
        self.task = Task::Read;
    }

    /// `.ti ±N`: the indent of the next line.
    pub(crate) fn ti(&mut self)
        ensures { self.new ≡ ti self.old }
    {
        self.settings
            .indents
            .ti(self.reader.line(), self.settings.pages.spacing);
        self.task = Task::Read;
    }

    /// `.lc c`: what leaders repeat.
    pub(crate) fn lc(&mut self)
        ensures { self.new ≡ lc self.old }
    {
        self.settings.tabs.lc(self.reader.line());
        self.task = Task::Read;
    }

    /// `.ta Nt ..`: the tab stops.
    pub(crate) fn ta(&mut self)
        ensures { self.new ≡ ta self.old }
    {
        self.settings
            .tabs
            .ta(self.reader.line(), self.settings.pages.spacing);
        self.task = Task::Read;
    }

    /// `.tc c`: what tabs repeat.
    pub(crate) fn tc(&mut self)
        ensures { self.new ≡ tc self.old }
    {
        self.settings.tabs.tc(self.reader.line());
        self.task = Task::Read;
    }

    /// `.ns`: no-space mode.
    pub(crate) fn ns(&mut self)
        ensures { self.new ≡ ns self.old }
    {
        self.settings.pages.ns();
        self.task = Task::Read;
    }

    /// `.pc c`: the page number character.
    pub(crate) fn pc(&mut self)
        ensures { self.new ≡ pc self.old }
    {
        self.settings.pages.pc(self.reader.line());
        self.task = Task::Read;
    }

    /// `.pl ±N`: the page length.
    pub(crate) fn pl(&mut self)
        ensures { self.new ≡ pl self.old }
    {
        let here = self.here();
        self.settings.pages.pl(self.reader.line(), here);
        self.task = Task::Read;
    }

    /// `.rs`: no-space mode ends.
    pub(crate) fn rs(&mut self)
        ensures { self.new ≡ rs self.old }
    {
        self.settings.pages.rs();
        self.task = Task::Read;
    }

    /// `.vs N`: the vertical spacing.
    pub(crate) fn vs(&mut self)
        ensures { self.new ≡ vs self.old }
    {
        let here = self.here();
        self.settings.pages.vs(self.reader.line(), here);
        self.task = Task::Read;
    }
}
