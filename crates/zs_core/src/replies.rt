//! Replies given twice: to the caller, and in the event.

ghost use Rattle.std.specs.Prelude.{◌≡◌};
ghost use Rattle.zs_core.specs.Calls.{IsPlain};
ghost use Rattle.zs_core.specs.Reading.{IsReadReply};

use zs_script::Reply;

/// Another reply like one that stands alone.
pub(crate) fn copied(reply: &Reply) -> Reply
    requires { IsPlain reply.now }
    ensures { result ≡ reply.now }
{
    match reply {
        Reply::Queued { txg, task } => Reply::Queued {
            txg: *txg,
            task: *task,
        },
        Reply::Wrote {
            ds,
            object,
            leaf,
            txg,
        } => Reply::Wrote {
            ds: *ds,
            object: *object,
            leaf: *leaf,
            txg: *txg,
        },
        Reply::Refused(refusal) => Reply::Refused(*refusal),
        _ => unreachable!(),
    }
}

/// Another reply like one that ends a read.
pub(crate) fn read_copied(reply: &Reply) -> Reply
    requires { IsReadReply reply.now }
    ensures { result ≡ reply.now }
{
    match reply {
        Reply::Read {
            ds,
            object,
            leaf,
            value,
        } => Reply::Read {
            ds: *ds,
            object: *object,
            leaf: *leaf,
            value: *value,
        },
        Reply::ReadHole { ds, object, leaf } => Reply::ReadHole {
            ds: *ds,
            object: *object,
            leaf: *leaf,
        },
        Reply::Refused(refusal) => Reply::Refused(*refusal),
        _ => unreachable!(),
    }
}
