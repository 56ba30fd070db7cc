//! Findings whose texts were worked out by hand.
use tally_check::{
    Content, Counts, Findings, Found, LoginFindings, ProcFindings, Sessions, Span, Stayed, Steps,
    Zeros,
};
use tally_kinds::Looks;

/// Nothing that is not normal.
const SOUND: Counts = Counts {
    records: 1,
    zeros: Zeros {
        all: Found {
            count: 0,
            first: None,
        },
        at_end: 0,
    },
    unknown: Found {
        count: 0,
        first: None,
    },
    span: None,
};

const NO_STAY: Stayed = Stayed {
    count: 0,
    seconds: 0,
};

/// A log with something of everything.
pub(crate) fn night() -> Findings {
    let counts = Counts {
        records: 9,
        zeros: Zeros {
            all: Found {
                count: 3,
                first: Some(1),
            },
            at_end: 1,
        },
        unknown: Found {
            count: 1,
            first: Some(3),
        },
        span: Some(Span {
            first: 1000,
            last: 9600,
        }),
    };
    let sessions = Sessions {
        still_open: Stayed {
            count: 1,
            seconds: 3600,
        },
        crashed: Stayed {
            count: 2,
            seconds: 90_061,
        },
    };
    Findings {
        size: 3458,
        content: Content::Logins(LoginFindings {
            counts,
            types: [0, 0, 1, 0, 0, 0, 1, 2, 1, 0],
            steps: Steps {
                count: 2,
                greatest: 3600,
            },
            sessions,
            rest: 2,
        }),
    }
}

/// A log of one record at some time.
pub(crate) fn log_at(first: i64, last: i64) -> Findings {
    let counts = Counts {
        span: Some(Span { first, last }),
        ..SOUND
    };
    Findings {
        size: 384,
        content: Content::Logins(LoginFindings {
            counts,
            types: [1, 0, 0, 0, 0, 0, 0, 0, 0, 0],
            steps: Steps {
                count: 0,
                greatest: 0,
            },
            sessions: Sessions {
                still_open: NO_STAY,
                crashed: NO_STAY,
            },
            rest: 0,
        }),
    }
}

/// The login record that was made of a database of one open session.
pub(crate) fn made() -> Findings {
    let time = 1000;
    let counts = Counts {
        span: Some(Span {
            first: time,
            last: time,
        }),
        ..SOUND
    };
    Findings {
        size: 8192,
        content: Content::Logins(LoginFindings {
            counts,
            types: [0, 0, 0, 0, 0, 0, 0, 1, 0, 0],
            steps: Steps {
                count: 0,
                greatest: 0,
            },
            sessions: Sessions {
                still_open: Stayed {
                    count: 1,
                    seconds: 0,
                },
                crashed: NO_STAY,
            },
            rest: 0,
        }),
    }
}

/// The latest process that there can be.
pub(crate) fn process() -> Findings {
    let last = 4_294_967_295;
    let counts = Counts {
        span: Some(Span { first: 0, last }),
        ..SOUND
    };
    Findings {
        size: 64,
        content: Content::Processes(ProcFindings {
            counts,
            version_2: 0,
            version_3: 1,
            rest: 0,
        }),
    }
}

pub(crate) fn other(size: u64, looks: Looks) -> Findings {
    Findings {
        size,
        content: Content::Other(looks),
    }
}
