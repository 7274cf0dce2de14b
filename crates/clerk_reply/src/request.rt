// What a request of docs/PIPE.md asks for, by the byte that it begins with.
ghost use Rattle.clerk_reply.specs.Codes.{Decodes};

#[derive(Clone, Copy)]
pub enum Request {
    Hello,
    Read,
    Converted,
    Checked,
    Written,
    Faces,
    Text,
}

// A byte that stands for no kind.
#[derive(Clone, Copy)]
pub struct UnknownKind(pub u8);

impl TryFrom<u8> for Request {
    type Error = UnknownKind;

    ghost try_from_gives = { Decodes };

    fn try_from(code: u8) -> Result<Self, UnknownKind> {
        match code {
            0 => Ok(Request::Hello),
            1 => Ok(Request::Read),
            2 => Ok(Request::Converted),
            3 => Ok(Request::Checked),
            4 => Ok(Request::Written),
            5 => Ok(Request::Faces),
            6 => Ok(Request::Text),
            _ => Err(UnknownKind(code)),
        }
    }
}
