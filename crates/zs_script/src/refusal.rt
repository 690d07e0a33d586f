//! Why the pool refuses a command.

ghost use Rattle.std.specs.Prelude.{◌≡◌};
ghost use Rattle.zs_script.specs.Refusals.{refusal_name};

/// Why a command or a sync is refused. Among refusals of one group the one that stands first here is
/// tested first.
#[derive(Clone, Copy, Debug, PartialEq, Eq)]
pub enum Refusal {
    /// No dataset has the name.
    NoDataset,
    /// A head has the name, or a snapshot of that head has the label.
    Exists,
    /// A head was needed.
    NotHead,
    /// A snapshot was needed.
    NotSnapshot,
    /// The snapshot has more than one child.
    HasClones,
    /// The head's parent snapshot has the same owner.
    HasSnapshots,
    /// The heads are one, or have different parents.
    NotSiblings,
    /// The head's parent was created in this transaction group.
    SameTxg,
    /// There are 255 datasets, or the ids are used up.
    TooMany,
    /// No scan is running.
    NoScan,
    /// A scan is running that is not a paused scrub.
    ScanBusy,
    /// No online device has a missing transaction group.
    NothingDirty,
    /// No scrub is paused.
    NotPaused,
    /// As many pieces wait as the limit allows.
    Full,
    /// A checkpoint is due.
    Draining,
    /// No device of a written mirror took the write.
    NoCopy,
    /// No device took the label.
    NoLabelWritten,
    /// No readable copy of the record has its sum.
    RecordLost,
    /// A mirror has no device with a label.
    VdevMissing,
    /// No copy of the block could be read with its sum.
    ReadLost,
    /// No free range fits a needed block.
    NoSpace,
    /// The dataset has no such object.
    NoObject,
    /// The dataset has the object.
    ObjectThere,
    /// The leaf is past the object's end.
    PastEnd,
    /// The pool would have more blocks than it may.
    BlocksFull,
    /// The device or the mirror is not there.
    NoDevice,
    /// No other device of the mirror is online.
    LastDevice,
    /// The scrub is paused.
    Paused,
    /// The pool is suspended.
    Suspended,
    /// The device is already offline, or online.
    SameState,
    /// The range is not in the space of the device.
    OutOfRange,
    /// The device failed.
    DeviceFault,
    /// No transaction group is left.
    TxgEnd,
    /// The transaction group would have more sectors than it may.
    TxgFull,
    /// No device has a label.
    NoLabel,
    /// A label is of another pool, or stands at another place.
    OtherPool,
    /// A label has another version.
    Version,
    /// There are not as many images as the label says.
    ImageCount,
    /// Two labels of the best transaction group differ in their record.
    Split,
    /// An image is not blank.
    NotBlank,
    /// An image is too small.
    TooSmall,
    /// An image is too large.
    TooLarge,
    /// The images do not make mirrors of this width.
    Shape,
}

impl Refusal {
    /// The name that replies print.
    pub fn name(self) -> &'static str
        ensures { result.now ≡ refusal_name self }
    {
        match self {
            Refusal::NoDataset => "NoDataset",
            Refusal::Exists => "Exists",
            Refusal::NotHead => "NotHead",
            Refusal::NotSnapshot => "NotSnapshot",
            Refusal::HasClones => "HasClones",
            Refusal::HasSnapshots => "HasSnapshots",
            Refusal::NotSiblings => "NotSiblings",
            Refusal::SameTxg => "SameTxg",
            Refusal::TooMany => "TooMany",
            Refusal::NoScan => "NoScan",
            Refusal::ScanBusy => "ScanBusy",
            Refusal::NothingDirty => "NothingDirty",
            Refusal::NotPaused => "NotPaused",
            Refusal::Full => "Full",
            Refusal::Draining => "Draining",
            Refusal::NoCopy => "NoCopy",
            Refusal::NoLabelWritten => "NoLabelWritten",
            Refusal::RecordLost => "RecordLost",
            Refusal::VdevMissing => "VdevMissing",
            Refusal::ReadLost => "ReadLost",
            Refusal::NoSpace => "NoSpace",
            Refusal::NoObject => "NoObject",
            Refusal::ObjectThere => "ObjectThere",
            Refusal::PastEnd => "PastEnd",
            Refusal::BlocksFull => "BlocksFull",
            Refusal::NoDevice => "NoDevice",
            Refusal::LastDevice => "LastDevice",
            Refusal::Paused => "Paused",
            Refusal::Suspended => "Suspended",
            Refusal::SameState => "SameState",
            Refusal::OutOfRange => "OutOfRange",
            Refusal::DeviceFault => "DeviceFault",
            Refusal::TxgEnd => "TxgEnd",
            Refusal::TxgFull => "TxgFull",
            Refusal::NoLabel => "NoLabel",
            Refusal::OtherPool => "OtherPool",
            Refusal::Version => "Version",
            Refusal::ImageCount => "ImageCount",
            Refusal::Split => "Split",
            Refusal::NotBlank => "NotBlank",
            Refusal::TooSmall => "TooSmall",
            Refusal::TooLarge => "TooLarge",
            Refusal::Shape => "Shape",
        }
    }
}
