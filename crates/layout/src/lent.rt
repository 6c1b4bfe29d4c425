// An index lent to read: header and the three buffers, which hold an index.
ghost use Rattle.layout.specs.IndexProp.{Index-prop};
ghost use Rattle.layout.specs.Presumed.{Index};

use crate::Header;

#[derive(Clone, Copy)]
pub struct View<'a> {
    pub header: Header,
    pub dir: &'a [u32],
    pub slots: &'a [u64],
    pub arena: &'a [u8],
    pub ghost index: { Index header dir.now slots.now arena.now } by { Index-prop header dir.now slots.now arena.now },
}

impl<'a> View<'a> {
    ghost use Rattle.layout.specs.Viewed.{Views};

    /// The index that these lent buffers hold.
    pub fn new(header: Header, dir: &'a [u32], slots: &'a [u64], arena: &'a [u8]) -> View<'a>
        requires { Index header dir.now slots.now arena.now }
        ensures { Views result header dir.now slots.now arena.now }
    {
        View {
            header,
            dir,
            slots,
            arena,
        }
    }
}
