//! The sessions of tests/sessions. `tests/run_sessions write` writes this file.
use iova_session::end::End;

/// What a peer sends before it ends, what it is answered, and how the session ends.
#[derive(Clone, Copy)]
pub(crate) struct Expected {
    pub(crate) input: &'static [u8],
    pub(crate) answers: &'static [u8],
    pub(crate) end: End,
}

pub(crate) static SESSIONS: [Expected; 12] = [
    // bad_line
    Expected {
        input: b"hello iova1 0 dac\nalloc 01 5\nbye\n",
        answers: b"opened 1\nno 20 BadLine\n",
        end: End::BadLine,
    },
    // biggest_number
    Expected {
        input: b"hello iova1 0 dac\nalloc 18446744073709551615 0\nbye\n",
        answers: b"opened 1\nno 2 TooBig\nbye\n",
        end: End::Bye,
    },
    // bye_then_more
    Expected {
        input: b"bye\nx\n",
        answers: b"bye\n",
        end: End::Bye,
    },
    // crlf
    Expected {
        input: b"hello iova1 0 dac\r\n",
        answers: b"no 20 BadLine\n",
        end: End::BadLine,
    },
    // ends_without_newline
    Expected {
        input: b"hello iova1 0 dac\nalloc 1 9\nfr",
        answers: b"opened 1\ngiven 9 1\n",
        end: End::Closed,
    },
    // half_a_line
    Expected {
        input: b"list",
        answers: b"",
        end: End::Closed,
    },
    // hello_refusals
    Expected {
        input: b"stat\nhello iova1 8 dac\nhello iova1 0 sac\nhello iova1 0 sac\nbye\n",
        answers: b"no 3 NoClient\nno 23 NoDomain\nopened 1\nno 24 Twice\nbye\n",
        end: End::Bye,
    },
    // in_one_hold
    Expected {
        input: b"hello iova1 0 dac\nalloc 1 9\nalloc 1 9\nfree 9\nstat\nbye\n",
        answers: b"opened 1\ngiven 9 1\ngiven 8 1\nqueued 9 1\nstat 1021 0 1 0 0 1 0 0\nbye\n",
        end: End::Bye,
    },
    // long_line
    Expected {
        input: b"xxxxxxxxxxxxxxxxxxxxxxxxxxxxxxxxxxxxxxxxxxxxxxxxxxxxxxxxxxxxxxxxxxxxxxxxxxxxxxxxxxxxxxxxxxxxxxxxxxxxxxxxxxxxxxxxxxxxxxxxxxxxxxxx",
        answers: b"no 20 BadLine\n",
        end: End::BadLine,
    },
    // long_line_then
    Expected {
        input: b"hello iova1 0 dac\nxxxxxxxxxxxxxxxxxxxxxxxxxxxxxxxxxxxxxxxxxxxxxxxxxxxxxxxxxxxxxxxxxxxxxxxxxxxxxxxxxxxxxxxxxxxxxxxxxxxxxxxxxxxxxxxxxxxxxxxxxxxxxxxxx\n",
        answers: b"opened 1\nno 20 BadLine\n",
        end: End::BadLine,
    },
    // nothing
    Expected {
        input: b"",
        answers: b"",
        end: End::Closed,
    },
    // one_of_each
    Expected {
        input: b"hello iova1 0 dac\nalloc 3 1023\nlist\nfree 1020\nfree 1020\nflush\nstat\nbye\n",
        answers: b"opened 1\ngiven 1020 4\nheld 1\n1020 4\nqueued 1020 4\nno 8 NotHeld\nflushed 1 1\nstat 1019 0 0 4 0 0 1 1\nbye\n",
        end: End::Bye,
    },
];
