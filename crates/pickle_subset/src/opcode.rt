//! The opcodes that are read.
ghost use Rattle.std.specs.Prelude.{◌≡◌};
ghost use Rattle.pickle_subset.specs.Opcode.{opcode_of, form_of};
ghost use Rattle.pickle_subset.specs.Instruction.{HasShortCount};
ghost use Rattle.pickle_subset.specs.Pickle.{is_stop};

/// An opcode of Python's pickles, by the name that Python's `pickletools` gives it. `specs/Opcode.antt` has each
/// with its byte and its argument.
#[derive(Clone, Copy)]
pub enum Opcode {
    Proto,
    Frame,
    Mark,
    Stop,
    EmptyList,
    Append,
    Appends,
    Tuple,
    Tuple2,
    BinInt,
    BinInt1,
    BinInt2,
    Long1,
    BinFloat,
    BinUnicode,
    ShortBinUnicode,
    BinString,
    ShortBinString,
    BinPut,
    LongBinPut,
    BinGet,
    LongBinGet,
    Memoize,
    None,
    NewTrue,
    NewFalse,
}

/// How the argument of an opcode is written.
#[derive(Clone, Copy)]
pub enum Form {
    /// This number of bytes.
    Bytes(usize),
    /// A length of this number of bytes, the lowest first, and then as many bytes as it says.
    Counted(usize),
    /// The same with a signed length of four bytes.
    SignedCount,
}

impl Opcode {
    /// The opcode that a byte is, if the table has it.
    pub fn of_byte(byte: u8) -> Option<Opcode>
        ensures { result ≡ opcode_of byte }
    {
        Some(match byte {
            0x28 => Opcode::Mark,
            0x2e => Opcode::Stop,
            0x47 => Opcode::BinFloat,
            0x4a => Opcode::BinInt,
            0x4b => Opcode::BinInt1,
            0x4d => Opcode::BinInt2,
            0x4e => Opcode::None,
            0x54 => Opcode::BinString,
            0x55 => Opcode::ShortBinString,
            0x58 => Opcode::BinUnicode,
            0x5d => Opcode::EmptyList,
            0x61 => Opcode::Append,
            0x65 => Opcode::Appends,
            0x68 => Opcode::BinGet,
            0x6a => Opcode::LongBinGet,
            0x71 => Opcode::BinPut,
            0x72 => Opcode::LongBinPut,
            0x74 => Opcode::Tuple,
            0x80 => Opcode::Proto,
            0x86 => Opcode::Tuple2,
            0x88 => Opcode::NewTrue,
            0x89 => Opcode::NewFalse,
            0x8a => Opcode::Long1,
            0x8c => Opcode::ShortBinUnicode,
            0x94 => Opcode::Memoize,
            0x95 => Opcode::Frame,
            _ => return None,
        })
    }

    /// Whether it ends the pickle.
    pub fn is_stop(self) -> bool
        ensures { result ≡ is_stop self }
    {
        matches!(self, Opcode::Stop)
    }

    /// How its argument is written.
    pub fn form(self) -> Form
        ensures form { result ≡ form_of self }
        ensures count { HasShortCount result }
    {
        match self {
            Opcode::Proto | Opcode::BinInt1 | Opcode::BinPut | Opcode::BinGet => Form::Bytes(1),
            Opcode::BinInt2 => Form::Bytes(2),
            Opcode::BinInt | Opcode::LongBinPut | Opcode::LongBinGet => Form::Bytes(4),
            Opcode::BinFloat | Opcode::Frame => Form::Bytes(8),
            Opcode::Long1 | Opcode::ShortBinUnicode | Opcode::ShortBinString => Form::Counted(1),
            Opcode::BinUnicode => Form::Counted(4),
            Opcode::BinString => Form::SignedCount,
            Opcode::Mark
            | Opcode::Stop
            | Opcode::EmptyList
            | Opcode::Append
            | Opcode::Appends
            | Opcode::Tuple
            | Opcode::Tuple2
            | Opcode::Memoize
            | Opcode::None
            | Opcode::NewTrue
            | Opcode::NewFalse => Form::Bytes(0),
        }
    }
}
