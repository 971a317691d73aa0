//! What is asked at the desks.

use crate::texts::{PlanText, VolumeText, request_bytes};
use std::alloc::{AllocError, Global};

/// A plan's id.
const FIRST: &str = "11111111-1111-4111-8111-111111111111";

const SECOND: &str = "22222222-2222-4222-8222-222222222222";

/// A request.
#[derive(Clone, Copy, Debug)]
pub enum Request {
    Put {
        operator: &'static str,
        id: &'static str,
        priority: &'static str,
        volume: VolumeText<'static>,
    },
    List {
        operator: &'static str,
    },
    Show {
        operator: &'static str,
        id: &'static str,
    },
    Delete {
        operator: &'static str,
        id: &'static str,
    },
    Clear {
        operator: &'static str,
        extent: VolumeText<'static>,
    },
    Status {
        operator: &'static str,
    },
}

/// What is asked at a desk in one call.
#[derive(Clone, Copy, Debug)]
pub enum Asked {
    Enrol(&'static str),
    Answer(Request),
    /// Each request can be answered again with the same answer.
    AnswerBoth(Request, Request),
    /// Likewise, as calls.
    RunBoth(Request, Request),
}

const CELL: &str = "\"cells\":[\"04\"]";

const FACE: &str = "\"cells\":[\"1\"]";

const STRIP: &str =
    "\"rectangle\":{\"face\":0,\"i_max\":100,\"i_min\":100,\"j_max\":0,\"j_min\":0,\"level\":24}";

const ALFAS_CELL: VolumeText = VolumeText {
    lower: "0",
    upper: "1000",
    start: "2026-06-01T12:00:00Z",
    end: "2026-06-01T13:00:00Z",
    footprint: CELL,
};

const ALFAS_STRIP: VolumeText = VolumeText {
    lower: "2000",
    upper: "3000",
    start: "2026-06-01T12:00:00Z",
    end: "2026-06-01T13:00:00Z",
    footprint: STRIP,
};

const BRAVOS_FACE: VolumeText = VolumeText {
    lower: "500",
    upper: "2000",
    start: "2026-06-01T12:30:00Z",
    end: "2026-06-01T14:00:00Z",
    footprint: FACE,
};

const WHOLE_FACE: VolumeText = VolumeText {
    lower: "0",
    upper: "3000",
    start: "2026-06-01T12:00:00Z",
    end: "2026-06-01T13:00:00Z",
    footprint: FACE,
};

/// A List of each operator.
pub const LISTS: [Request; 2] = [
    Request::List { operator: "alfa" },
    Request::List { operator: "bravo" },
];

/// The calls that are made at each desk.
pub const CALLS: [Asked; 14] = [
    Asked::Enrol("alfa"),
    Asked::Enrol("bravo"),
    Asked::Answer(Request::Put {
        operator: "alfa",
        id: FIRST,
        priority: "10",
        volume: ALFAS_CELL,
    }),
    Asked::Answer(Request::Put {
        operator: "bravo",
        id: FIRST,
        priority: "10",
        volume: BRAVOS_FACE,
    }),
    Asked::Answer(Request::Put {
        operator: "bravo",
        id: FIRST,
        priority: "20",
        volume: BRAVOS_FACE,
    }),
    Asked::Answer(Request::Put {
        operator: "alfa",
        id: SECOND,
        priority: "10",
        volume: ALFAS_STRIP,
    }),
    Asked::Answer(Request::List { operator: "alfa" }),
    Asked::Answer(Request::Show {
        operator: "alfa",
        id: FIRST,
    }),
    Asked::AnswerBoth(
        Request::Put {
            operator: "alfa",
            id: SECOND,
            priority: "10",
            volume: ALFAS_STRIP,
        },
        Request::List { operator: "bravo" },
    ),
    Asked::Answer(Request::Put {
        operator: "alfa",
        id: FIRST,
        priority: "25",
        volume: ALFAS_CELL,
    }),
    Asked::RunBoth(
        Request::Put {
            operator: "alfa",
            id: FIRST,
            priority: "25",
            volume: ALFAS_CELL,
        },
        Request::Delete {
            operator: "bravo",
            id: SECOND,
        },
    ),
    Asked::Answer(Request::Clear {
        operator: "alfa",
        extent: WHOLE_FACE,
    }),
    Asked::Answer(Request::Delete {
        operator: "bravo",
        id: FIRST,
    }),
    Asked::Answer(Request::Status { operator: "bravo" }),
];

impl Request {
    /// The bytes of the request.
    pub fn text(&self, alloc: Global) -> Result<Vec<u8>, AllocError> {
        let target = self.target(alloc)?;
        let body = self.body(alloc)?;
        request_bytes(alloc, self.method(), &target, self.operator(), &body)
    }

    fn method(&self) -> &'static str {
        match self {
            Request::Put { .. } => "PUT",
            Request::List { .. } | Request::Show { .. } | Request::Status { .. } => "GET",
            Request::Delete { .. } => "DELETE",
            Request::Clear { .. } => "POST",
        }
    }

    fn operator(&self) -> &'static str {
        match self {
            Request::Put { operator, .. }
            | Request::List { operator }
            | Request::Show { operator, .. }
            | Request::Delete { operator, .. }
            | Request::Clear { operator, .. }
            | Request::Status { operator } => operator,
        }
    }

    fn target(&self, alloc: Global) -> Result<String, AllocError> {
        match self {
            Request::Put { id, .. } | Request::Show { id, .. } | Request::Delete { id, .. } => {
                format!(in alloc; "/flight_plans/{id}")
            }
            Request::List { .. } => "/flight_plans".to_string(alloc),
            Request::Clear { .. } => "/clear_area_requests".to_string(alloc),
            Request::Status { .. } => "/status".to_string(alloc),
        }
    }

    fn body(&self, alloc: Global) -> Result<String, AllocError> {
        match self {
            Request::Put {
                priority,
                volume,
                ..
            } => plan_body(alloc, priority, volume),
            Request::Clear { extent, .. } => format!(in alloc; "{{\"extent\":{extent}}}"),
            _ => "".to_string(alloc),
        }
    }
}

// The body of a request to plan.
fn plan_body(alloc: Global, priority: &str, volume: &VolumeText<'_>) -> Result<String, AllocError> {
    let area = format!(in alloc; "{volume}")?;
    let plan = PlanText {
        style: "IfAllowed",
        usage: "Planned",
        aircraft: "Nominal",
        priority,
        area: &area,
    };
    format!(in alloc; "{plan}")
}
