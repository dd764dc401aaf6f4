//! All settings.
use crate::filling::Filling;
use crate::fonts::Fonts;
use crate::hyphenation::Hyphenation;
use crate::indents::Indents;
use crate::pages::Pages;
use crate::tabs::Tabs;

/// The settings of the formatter, by matter, and the width in units of the text of the last line that went out.
#[derive(Drop)]
pub struct Settings {
    pub filling: Filling,
    pub indents: Indents,
    pub fonts: Fonts,
    pub tabs: Tabs,
    pub hyphenation: Hyphenation,
    pub pages: Pages,
    pub text_width: u32,
}

impl Settings {
    ghost use Rattle.std.specs.Prelude.{◌≡◌};
    ghost use Rattle.nr_settings.specs.Settings.{first_settings};

    /// Those before the first line of input.
    pub fn new() -> Self
        ensures { result ≡ first_settings }
    {
        Settings {
            filling: Filling::new(),
            indents: Indents::new(),
            fonts: Fonts::new(),
            tabs: Tabs::new(),
            hyphenation: Hyphenation::new(),
            pages: Pages::new(),
            text_width: 0,
        }
    }

    /// Takes those of another.
    pub fn copy_from(&mut self, other: &Settings)
        ensures { self.new ≡ other.now }
    {
        self.filling = other.filling;
        self.indents = other.indents;
        self.fonts = other.fonts;
        self.tabs.copy_from(&other.tabs);
        self.hyphenation = other.hyphenation;
        self.pages = other.pages;
        self.text_width = other.text_width;
    }
}
