/// What a place asks of the kind of the expression that stands there: a Boolean, a number, or anything but a Boolean.
#[derive(Clone, Copy, PartialEq, Eq, Debug)]
pub enum Asks {
    Truth,
    Number,
    NoTruth,
}
