// Writing bytes one after another.
ghost use Rattle.std.specs.Prelude.{[], ◌∷◌, length};
ghost use Rattle.entries.specs.Writer.{HasRoom, Writes};

use memory::block::copy_in;

// A buffer, and where its next byte goes.
#[derive(Drop)]
pub struct Writer<'a> {
    pub out: &'a mut [u8],
    pub at: usize,
}

impl<'a> Writer<'a> {
    // Writes a byte.
    pub fn write_byte(&mut self, byte: u8)
        requires { HasRoom self.old 1 }
        ensures { Writes self.old self.new (byte ∷ []) }
    {
        self.out[self.at] = byte;
        self.at += 1;
    }

    // Writes all of src.
    pub fn write_bytes(&mut self, src: &[u8])
        requires { HasRoom self.old (length src.now) }
        ensures { Writes self.old self.new src.now }
    {
        copy_in(self.out, self.at, src);
        self.at += src.len();
    }
}
