// The fields of a line's head that are no short text: the facility, which may begin with spaces, and the message type.
ghost use Rattle.std.specs.Prelude.{◌≡◌, true, ◌+◌, ◌*◌, ◌^◌, ◌<◌};
ghost use Rattle.text.specs.Text.{written_next, written_bytes};
ghost use Rattle.fields.specs.Facility.{facility_of, facility_text, is_facility_value};
ghost use Rattle.fields.specs.MessageType.{type_of, type_text, type_number};

use text::NotWritten;
use text::writing::put_bytes;

// Four bytes as one number to the base 256.
fn joined(a: u8, b: u8, c: u8, d: u8) -> u32
    ensures { result ≡ a * 16777216 + b * 65536 + c * 256 + d }
{
    u32::from_be_bytes([a, b, c, d])
}

// No four bytes make a greater number.
const LAST_FACILITY: u64 = 0xFFFFFFFF;

// A facility: four bytes, right justified, held as one number to the base 256.
#[derive(Clone, Copy)]
pub struct Facility(pub u64);

impl Facility {
    pub fn read(s: &[u8]) -> Option<Facility>
        ensures { result ≡ facility_of s.now }
    {
        if !rules::is_facility(s) {
            return None;
        }
        Some(Facility(joined(s[0], s[1], s[2], s[3]) as u64))
    }

    // Its four bytes.
    fn bytes(self) -> [u8; 4]
        requires { self.0 < 256 ^ 4 }
        ensures { result ≡ facility_text self.0 }
    {
        (self.0 as u32).to_be_bytes()
    }

    pub fn holds(self) -> bool
        ensures { result ≡ is_facility_value self.0 }
    {
        self.0 <= LAST_FACILITY && rules::is_facility(&self.bytes())
    }

    pub fn put(self, out: &mut [u8], at: usize) -> Result<usize, NotWritten>
        ensures value { result ≡ written_next (is_facility_value self.0) (facility_text self.0) out.old at }
        ensures out_after { out.new ≡ written_bytes (is_facility_value self.0) (facility_text self.0) out.old at }
    {
        if !self.holds() {
            return Err(NotWritten::NoText);
        }
        let bytes = self.bytes();
        put_bytes(&bytes, out, at)
    }
}

// A message type: two letters.
#[derive(Clone, Copy)]
pub enum MessageType {
    Af,
    Az,
    Dz,
    Fz,
    Rz,
    Tz,
    Uz,
    Rt,
    To,
    Hb,
}

// The two letters of each type, as a number to the base 256.
const AF: u16 = 0x4146;

const AZ: u16 = 0x415A;

const DZ: u16 = 0x445A;

const FZ: u16 = 0x465A;

const RZ: u16 = 0x525A;

const TZ: u16 = 0x545A;

const UZ: u16 = 0x555A;

const RT: u16 = 0x5254;

const TO: u16 = 0x544F;

const HB: u16 = 0x4842;

// (Not `TryFrom` and `From`: what they promise would stand in a ghost member and not at the function, and `read` is promised by its name.)
impl MessageType {
    pub fn read(s: &[u8]) -> Option<MessageType>
        ensures { result ≡ type_of s.now }
    {
        if s.len() != 2 {
            return None;
        }
        let letters = u16::from_be_bytes([s[0], s[1]]);
        match letters {
            AF => Some(MessageType::Af),
            AZ => Some(MessageType::Az),
            DZ => Some(MessageType::Dz),
            FZ => Some(MessageType::Fz),
            RZ => Some(MessageType::Rz),
            TZ => Some(MessageType::Tz),
            UZ => Some(MessageType::Uz),
            RT => Some(MessageType::Rt),
            TO => Some(MessageType::To),
            HB => Some(MessageType::Hb),
            _ => None,
        }
    }

    fn letters(self) -> u16
        ensures { result ≡ type_number self }
    {
        match self {
            MessageType::Af => AF,
            MessageType::Az => AZ,
            MessageType::Dz => DZ,
            MessageType::Fz => FZ,
            MessageType::Rz => RZ,
            MessageType::Tz => TZ,
            MessageType::Uz => UZ,
            MessageType::Rt => RT,
            MessageType::To => TO,
            MessageType::Hb => HB,
        }
    }

    // Every type has a text, so only the room is asked.
    pub fn put(self, out: &mut [u8], at: usize) -> Result<usize, NotWritten>
        ensures value { result ≡ written_next true (type_text self) out.old at }
        ensures out_after { out.new ≡ written_bytes true (type_text self) out.old at }
    {
        let letters = self.letters().to_be_bytes();
        put_bytes(&letters, out, at)
    }
}
