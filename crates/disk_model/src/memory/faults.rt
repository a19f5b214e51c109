ghost use Rattle.std.specs.Prelude.{◌≡◌, ◌↔◌, IsTrue, Some};

/// The fate of a call that changes the disk.
#[derive(Clone, Copy)]
pub(crate) enum Fate {
    Passes,
    /// It fails after writing this many bytes; a cut is made if there are any.
    Fails(u64),
}

impl Fate {
    ghost use Rattle.disk_model.specs.Private.Faults.{part_of};

    /// How many of `bytes` bytes are written.
    pub(crate) fn part_of(self, bytes: usize) -> usize
        ensures { result ≡ part_of self bytes }
    {
        match self {
            Fate::Passes => bytes,
            Fate::Fails(part) => bytes.min(part as usize),
        }
    }
}

/// The failures that a test has asked for.
#[derive(Clone, Copy)]
pub(crate) struct Faults {
    /// How many calls still succeed before each one fails.
    pub(crate) fuse: Option<u64>,
    /// How many changing calls still succeed before one fails, and how many bytes that one writes.
    pub(crate) change_break: Option<(u64, u64)>,
    /// How many calls of `len` and `read_at` still succeed before one fails.
    pub(crate) read_break: Option<u64>,
}

impl Faults {
    ghost use Rattle.disk_model.specs.Faults.{no_faults, fate_of, after_change_call, passes_read};
    ghost use Rattle.disk_model.specs.Faults.{after_read_call};

    pub(crate) fn none() -> Faults
        ensures { result ≡ no_faults }
    {
        Faults {
            fuse: None,
            change_break: None,
            read_break: None,
        }
    }

    /// The fate of the next call of `write_at`, `cut` or `sync`.
    pub(crate) fn of_change(&mut self) -> Fate
        ensures fate { result ≡ fate_of self.old }
        ensures faults { self.new ≡ after_change_call self.old }
    {
        match self.fuse {
            Some(0) => return Fate::Fails(0),
            Some(left) => self.fuse = Some(left - 1),
            None => {}
        }
        match self.change_break {
            Some((0, part)) => {
                self.change_break = None;
                Fate::Fails(part)
            }
            Some((left, part)) => {
                self.change_break = Some((left - 1, part));
                Fate::Passes
            }
            None => Fate::Passes,
        }
    }

    /// Whether the next call of `len` or `read_at` succeeds.
    pub(crate) fn of_read(&mut self) -> bool
        ensures passes { result ≡ passes_read self.old }
        ensures faults { self.new ≡ after_read_call self.old }
    {
        match self.fuse {
            Some(0) => return false,
            Some(left) => self.fuse = Some(left - 1),
            None => {}
        }
        match self.read_break {
            Some(0) => {
                self.read_break = None;
                false
            }
            Some(left) => {
                self.read_break = Some(left - 1);
                true
            }
            None => true,
        }
    }
}
