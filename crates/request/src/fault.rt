ghost use Rattle.std.specs.Prelude.{◌≡◌};
ghost use Rattle.request.specs.declared.fault.TextFault.TheVariants.{Net as carried, BadField as bad};

use net_laws::Fault;
use thiserror::Error;

/// A refusal of a line, or one of the net carried on whole.
#[derive(Clone, Copy, Debug, PartialEq, Eq, Error)]
pub enum TextFault {
    /// 20: the line has more than 80 bytes.
    #[error("the line has more than 80 bytes")]
    LongLine,
    /// 21: field 1 is no known letter.
    #[error("field 1 is no known letter")]
    NoLetter,
    /// 22: the line has not that letter's fields.
    #[error("the line has not the fields of its letter")]
    WrongFields,
    /// 23: this field, counted from 1 with the letter, is the first that is not good.
    #[error("field {0} is not good")]
    BadField(u8),
    /// 24: W is not on line 1, or line 1 was no accepted W.
    #[error("a net is made on line 1 alone, and by that line alone")]
    OutOfPlace,
    /// 25: the space has not this call.
    #[error("the space has not this call")]
    NoCall,
    /// 1 to 16: the refusal of the net.
    #[error(transparent)]
    Net(Fault),
}

/// The number of a field that is not good.
#[derive(Clone, Copy)]
pub(crate) struct Unread(pub u8);

impl From<Fault> for TextFault {
    ghost from_gives = { λ e r. r ≡ carried e };

    fn from(fault: Fault) -> TextFault {
        TextFault::Net(fault)
    }
}

impl From<Unread> for TextFault {
    ghost from_gives = { λ e r. r ≡ bad e.0 };

    fn from(unread: Unread) -> TextFault {
        TextFault::BadField(unread.0)
    }
}
