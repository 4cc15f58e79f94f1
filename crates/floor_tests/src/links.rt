//! Links over real connections.
use crate::leaping::Leaping;
use crate::steps::{Step, first_other};
use outside::WriteEnd;
use outside::links::Recv;
use std::cell::Cell;
use std::test::Fail;

/// Steps at two ends that have met, at the second 1,000 of the clock.
const LINKS: &[(&str, &[Step])] = &[
    (
        "octets go both ways",
        &[
            Step::Carries(1),
            Step::Carries(1000),
            Step::Carries(70_000),
            Step::IsAlone,
        ],
    ),
    (
        "a node that closes is the end, and the other direction is open",
        &[
            Step::Says(4),
            Step::ShutsDown,
            Step::Recv(Recv::Got(4)),
            Step::Recv(Recv::End),
            Step::Send(3, WriteEnd::Took(3)),
            Step::Reads(3),
            Step::Goes,
            Step::Recv(Recv::End),
        ],
    ),
    (
        "a reset is a fault and then the end",
        &[
            Step::Send(6, WriteEnd::Took(6)),
            Step::Goes,
            Step::Recv(Recv::Failed),
            Step::Recv(Recv::End),
            Step::Send(4, WriteEnd::Failed),
        ],
    ),
    (
        "of a node that never reads nothing is taken in the end",
        &[Step::Fills, Step::Recv(Recv::Idle)],
    ),
    (
        "a closed link ends both ways, and gives its descriptor back",
        &[
            Step::Says(6),
            Step::Send(3, WriteEnd::Took(3)),
            Step::Closes(true),
            Step::Recv(Recv::End),
            Step::Reads(3),
            Step::Reads(0),
            Step::Closes(false),
            Step::Send(4, WriteEnd::Failed),
        ],
    ),
    (
        "a node that says nothing is the end after 30 seconds, and isn't asked any more",
        &[
            Step::Recv(Recv::Idle),
            Step::At(1029),
            Step::Recv(Recv::Idle),
            Step::At(1030),
            Step::Recv(Recv::End),
            Step::Says(4),
            Step::Recv(Recv::End),
        ],
    ),
    (
        "a node that has said something may be silent",
        &[
            Step::Says(4),
            Step::Recv(Recv::Got(4)),
            Step::At(1030),
            Step::Recv(Recv::Idle),
        ],
    ),
];

#[test]
fn links_over_connections(rt: HostRuntime) -> Result<(), Fail> {
    for &(what, steps) in LINKS {
        let seconds = Cell::new(1000u64);
        let leaping = Leaping {
            host: rt,
            seconds: &seconds,
        };
        let other = first_other(&rt, &seconds, leaping, rt.alloc(), steps)?;
        assert_eq!(rt; other, None, "{what}");
    }
    Ok(())
}
