//! Theorems about the definitions. Each is the contract of a function that does nothing.

ghost use Rattle.desk_program.specs.PortGiven.{PortGiven};

/// The main theorem about what the clients of a port were sent, if the storage is intact and the port reports
/// what it closes. An answer that was sent whole is decided, byte for byte, by its request, the second at
/// which that was decided, the desk's settings, the ceiling and the plans of its operator, and the greatest
/// priority that plans of others have at each point. Requests and enrolments of others don't change an
/// operator's ceiling and plans. `PortGiven` states this part by part. Its parts `served` and `played` begin
/// with what the clause `served` of `serve` and the clause `played` of `play_port` ensure.
pub fn port_given()
    ensures { PortGiven }
{}
