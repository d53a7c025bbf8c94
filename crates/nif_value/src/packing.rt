//! Bytes on their way into cells.
ghost use Rattle.std.specs.Prelude.{◌≡◌, ◌^◌, ◌<◌, [], None, Some, option_to_list};
ghost use Rattle.nif_cells.specs.Encoding.{packed_more};
ghost use Rattle.nif_value.specs.Packing.{started};

/// The last bytes of a line or run of bytes, which are in no cell yet: at most seven, the first the lowest.
#[derive(Drop, Clone, Copy)]
pub(crate) struct Packing {
    pub(crate) left: u32,
    pub(crate) bits: u64,
}

impl Packing {
    pub(crate) fn new() -> Packing
        ensures left { result.left ≡ 0 }
        ensures bits { result.bits ≡ 0 }
    {
        Packing { left: 0, bits: 0 }
    }

    /// Adds a byte. It answers the eight bytes that are full with it, if they are.
    pub(crate) fn add(&mut self, byte: u8) -> Option<u64>
        requires left { self.old.left < 8 }
        requires bits { self.old.bits < 256 ^ self.old.left }
        ensures more { packed_more (started self.old.left self.old.bits) byte
            ≡ record { words = option_to_list result; bits = self.new.bits; left = self.new.left } }
        ensures left { self.new.left < 8 }
        ensures bits { self.new.bits < 256 ^ self.new.left }
    {
        let bits = self.bits + ((byte as u64) << (8 * self.left));
        if self.left == 7 {
            self.left = 0;
            self.bits = 0;
            return Some(bits);
        }
        self.left += 1;
        self.bits = bits;
        None
    }
}
