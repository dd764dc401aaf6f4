//! What frames and rules are drawn with.
ghost use Rattle.std.specs.Prelude.{◌≡◌};
ghost use Rattle.tbl_table.specs.Signs as specs;

/// Where bars meet a rule.
#[derive(Clone, Copy)]
pub struct Joints {
    /// It begins there.
    pub begins: u8,
    /// It goes on.
    pub crosses: u8,
    /// It ends there.
    pub ends: u8,
}

/// What frames and rules are drawn with, a byte each.
#[derive(Clone, Copy)]
pub struct Signs {
    /// A cell of a rule.
    pub rule: u8,
    /// A bar.
    pub bar: u8,
    /// Where bars go down from a rule.
    pub top: Joints,
    /// Where they go up and down.
    pub middle: Joints,
    /// Where they go up.
    pub bottom: Joints,
}

impl Joints {
    /// One byte for all.
    fn alike(byte: u8) -> Joints
        ensures { result ≡ specs.alike byte }
    {
        Joints {
            begins: byte,
            crosses: byte,
            ends: byte,
        }
    }
}

impl Signs {
    /// In ASCII.
    pub fn ascii() -> Signs
        ensures { result ≡ specs.ascii }
    {
        Signs {
            rule: b'-',
            bar: b'|',
            top: Joints::alike(b'+'),
            middle: Joints::alike(b'+'),
            bottom: Joints::alike(b'+'),
        }
    }

    /// Where bars go up or down, or both.
    fn joints(self, up: bool, down: bool) -> Joints
        ensures { result ≡ specs.joints self up down }
    {
        match (up, down) {
            (false, true) => self.top,
            (true, false) => self.bottom,
            _ => self.middle,
        }
    }

    /// Where bars go up or down, or both, and a rule to the left or to the right, or both.
    pub fn joint(self, up: bool, down: bool, left: bool, right: bool) -> u8
        ensures { result ≡ specs.joint self up down left right }
    {
        let joints = self.joints(up, down);
        match (left, right) {
            (false, false) => self.bar,
            (false, true) => joints.begins,
            (true, false) => joints.ends,
            (true, true) => joints.crosses,
        }
    }
}
