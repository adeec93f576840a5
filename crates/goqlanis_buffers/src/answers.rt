//! The errors of the calls for C, and their numbers.

ghost use Rattle.std.specs.Prelude.{◌≡◌, ◌≤◌, Some};
ghost use Rattle.goqlanis_buffers.specs.Answers.{refusal_of};
ghost use Rattle.goqlanis_buffers.specs.Calls.{IsAnswer, IsAnswerAt};
ghost use Rattle.goqlanis_buffers.specs.Scanning.{picture_refusal, square_refusal};
ghost use Rattle.goqlanis_buffers.specs.Segments.{refusal_in};
ghost use Rattle.goqlanis_buffers.specs.declared.answers.Fault.TheVariants.{Other};
ghost use Rattle.goqlanis_buffers.specs.declared.answers.Refusal.TheVariants.{OutOfMemory};

use qrcode::types::QrError;
use qrcode_reader::Unread;
use qrcode_scan::{ScanError as UnreadPicture, Unscanned};
use std::alloc::AllocError;

/// Why a call fails, with the number that C gets. Each error has one cause.
#[derive(Clone, Copy, Drop, PartialEq, Eq)]
pub enum Refusal {
    /// No error correction level has this number.
    NoSuchLevel = 1,
    /// No version has this number.
    NoSuchVersion = 2,
    /// The version lacks the level.
    LevelNotInVersion = 3,
    /// There are more than 1,048,576 bytes.
    TooLong = 4,
    /// The bytes need a mode that the version lacks.
    NoMode = 5,
    /// No symbol of the requested kind holds the bytes.
    NoRoom = 6,
    /// The output buffer is too small.
    SmallBuffer = 7,
    /// Memory ran out.
    OutOfMemory = 8,
    /// No picture format has this number.
    NoSuchFormat = 9,
    /// The number of modules is not the square of their width.
    NotSquare = 10,
    /// The scale is 0 or above 65,535, a side with the quiet zone has more than 65,535 modules, or
    /// the picture has more pixels a side than the format allows (in PNG also none).
    NoSuchSize = 11,
    /// The bytes are not UTF-8.
    NotText = 12,
    /// No kind of segment has this number.
    NoSuchKind = 13,
    /// A segment has bytes that its mode cannot encode.
    NotInMode = 14,
    /// An ECI designator is above 999,999, an application indicator above 255, or a count above 16.
    NoSuchNumber = 15,
    /// No version has that many modules.
    NoSuchSide = 16,
    /// No level and mask have format information within three wrong bits of each copy.
    NoFormat = 17,
    /// A block has too many wrong codewords.
    Damaged = 18,
    /// The data bits are not segments and a terminator.
    NotSpelled = 19,
    /// The `size` field of a struct is not its size.
    NoSuchStruct = 20,
    /// No manner of writing data has this number.
    NoSuchManner = 21,
    /// The version has no mask of this number.
    NoSuchMask = 22,
    /// The format does not support these colours, or dots per inch.
    NotInFormat = 23,
    /// The data bits are not a text that readers show.
    NotShown = 24,
    /// The square has no structured append header.
    NotSeveral = 25,
    /// The square is a part of other data than the first one.
    Stranger = 26,
    /// A part is missing.
    Missing = 27,
    /// A part is there more than once.
    Twice = 28,
    /// The parts do not have the parity that their headers name.
    Parity = 29,
    /// The square does not decode in any position.
    NotRead = 30,
    /// An area has no rectangle, or one that is empty or not inside the symbol.
    NoSuchArea = 31,
    /// No kind of payload has this number.
    NoSuchContent = 32,
    /// The kind of payload has no such field.
    NoSuchField = 33,
    /// A field is empty.
    FieldEmpty = 34,
    /// A field, or the whole text, is too long.
    FieldTooLong = 35,
    /// A field is too short.
    FieldTooShort = 36,
    /// A field has a control character.
    FieldControl = 37,
    /// A field or an element has a character that may not stand there.
    FieldCharacter = 38,
    /// The check digits of a field or an element are wrong.
    FieldCheckDigits = 39,
    /// The number, date or time of a field or an element is out of range.
    FieldRange = 40,
    /// A field cannot be combined with the others.
    FieldUnused = 41,
    /// The application identifier of an element is unknown.
    NoSuchIdentifier = 42,
    /// The value of an element has too few or too many characters.
    ElementLength = 43,
    /// The number in a field has too many decimals.
    FieldDecimals = 44,
    /// A field is none of the words that are allowed.
    FieldWord = 45,
    /// No rectangle in the middle leaves what is asked for.
    NoArea = 46,
    /// The area touches more codewords of a block than may be lost.
    AreaBlock = 47,
    /// The area has more than three modules of a copy of the format information.
    AreaFormat = 48,
    /// The bytes are not a picture of a supported kind.
    NotPicture = 49,
    /// The picture is broken, has too many pixels, or uses an unsupported feature.
    BrokenPicture = 50,
    /// No square of modules was found in the picture.
    NoSquare = 51,
    /// The picture is larger than 67,108,864 bytes.
    LargePicture = 52,
    /// No character set has this number.
    NoSuchSet = 53,
    /// The character set lacks a character, or has none for a byte.
    NotInSet = 54,
    /// A block has fewer codewords than shall be wrong.
    ManyCodewords = 55,
    /// The format information has fewer bits than shall be wrong.
    ManyFormatBits = 56,
    /// The version information has fewer bits than shall be wrong, or none.
    ManyVersionBits = 57,
    /// The patterns have fewer modules than shall be wrong.
    ManyPatternModules = 58,
}

impl Refusal {
    /// Returns the number that C gets.
    pub fn number(self) -> u32
        ensures value { refusal_of result ≡ Some self }
        ensures at_least { 1 ≤ result }
    {
        self as u32
    }
}

/// Maps an error of a push, or of a constructor whose version is valid and whose bytes are within
/// the limit.
impl From<QrError> for Refusal {
    ghost from_gives = { λ e refusal. refusal ≡ refusal_in e };

    fn from(error: QrError) -> Refusal {
        match error {
            QrError::UnsupportedCharacterSet => Refusal::NoMode,
            QrError::InvalidVersion => Refusal::LevelNotInVersion,
            QrError::OutOfMemory => Refusal::OutOfMemory,
            QrError::DataTooLong => Refusal::NoRoom,
            QrError::InvalidEciDesignator => Refusal::NoSuchNumber,
            QrError::InvalidCharacter => Refusal::NotInMode,
        }
    }
}

/// Maps the error of a square that does not decode.
impl From<Unread> for Refusal {
    ghost from_gives = { λ e refusal. refusal ≡ square_refusal e };

    fn from(unread: Unread) -> Refusal {
        match unread {
            Unread::NoSuchSide => Refusal::NoSuchSide,
            Unread::NoFormat => Refusal::NoFormat,
            Unread::Damaged(_) => Refusal::Damaged,
            Unread::NotSpelled => Refusal::NotSpelled,
            Unread::OutOfMemory => Refusal::OutOfMemory,
        }
    }
}

/// Maps the error of a picture that does not decode.
impl From<UnreadPicture> for Refusal {
    ghost from_gives = { λ e refusal. refusal ≡ picture_refusal e };

    fn from(unread: UnreadPicture) -> Refusal {
        match unread {
            UnreadPicture::Unscanned(Unscanned::NotPicture) | UnreadPicture::Jpeg => {
                Refusal::NotPicture
            }
            UnreadPicture::OutOfMemory
            | UnreadPicture::Unscanned(Unscanned::OutOfMemory)
            | UnreadPicture::Png(qrcode_png::PngError::OutOfMemory) => Refusal::OutOfMemory,
            UnreadPicture::Unscanned(_) | UnreadPicture::Png(_) => Refusal::BrokenPicture,
            UnreadPicture::NoSquare => Refusal::NoSquare,
            UnreadPicture::NoSymbol(_, cause) => Refusal::from(cause),
        }
    }
}

/// Memory ran out.
impl From<AllocError> for Refusal {
    ghost from_gives = { λ _ refusal. refusal ≡ OutOfMemory };

    fn from(_error: AllocError) -> Refusal {
        Refusal::OutOfMemory
    }
}

/// Why a call fails that also reports what is wrong.
#[derive(Clone, Copy, Drop)]
pub enum Fault {
    /// The item with this index or number is wrong.
    At(usize, Refusal),
    /// No item is to blame.
    Other(Refusal),
}

/// No item is to blame.
impl From<Refusal> for Fault {
    ghost from_gives = { λ refusal fault. fault ≡ Other refusal };

    fn from(refusal: Refusal) -> Fault {
        Fault::Other(refusal)
    }
}

/// Turns a result into what C gets: 0, with the value in `output`; or the number of the error, with
/// `output` unchanged.
pub fn answer<T: Copy>(made: Result<T, Refusal>, output: &mut T) -> u32
    ensures { IsAnswer made result output.old output.new }
{
    match made {
        Ok(value) => {
            *output = value;
            0
        }
        Err(refusal) => refusal.number(),
    }
}

/// Like `answer`. If an item is to blame, `place` gets its index or number; else it is unchanged.
pub fn answer_at<T: Copy>(made: Result<T, Fault>, output: &mut T, place: &mut usize) -> u32
    ensures { IsAnswerAt made result output.old output.new place.old place.new }
{
    match made {
        Ok(value) => {
            *output = value;
            0
        }
        Err(Fault::At(index, refusal)) => {
            *place = index;
            refusal.number()
        }
        Err(Fault::Other(refusal)) => refusal.number(),
    }
}
