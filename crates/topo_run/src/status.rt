ghost use Rattle.std.specs.Prelude.{◌≡◌};
ghost use Rattle.outside_terms.specs.Statuses.{code_of, status_of};

use outside_terms::{End, Status};

/// The status after all lines were answered.
pub fn status_of(end: End, refused: bool) -> Status
    ensures { result ≡ status_of end refused }
{
    match end {
        End::AtEnd if refused => Status::Refused,
        End::AtEnd => Status::Done,
        End::Failed => Status::ReadFault,
        End::TooLong => Status::TooLong,
    }
}

/// The exit status of the program.
pub fn code_of(status: Status) -> u8
    ensures { result ≡ code_of status }
{
    match status {
        Status::Done => 0,
        Status::Refused => 1,
        Status::Usage => 2,
        Status::ReadFault => 3,
        Status::WriteFault => 4,
        Status::NoMemory => 5,
        Status::WrongText => 6,
        Status::OpenFault => 7,
        Status::SaveFault => 8,
        Status::Unsound => 9,
        Status::TooLong => 10,
        Status::NoProject => 11,
    }
}
