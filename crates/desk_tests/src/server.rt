//! Connections served in one thread: clients write their requests, the desk serves them, clients read.

ghost use Rattle.std.specs.Prelude.{◌≤◌, IfOk};
ghost use Rattle.std.specs.Int.{IsInRange};
ghost use Rattle.desk_cli.specs.Lines.{AreEnrolments, IsServe};

use crate::given::{COMPLETED, FIRST_PUT, LATE};
use desk_cli::{Database, DeskArgs, Enrolment, ErrorCode, ServeArgs};
use desk_program::{EnrolmentSource, LocalPort, serve};
use desk_rules::operator::Operator;
use desk_rules::terms::Terms;
use desk_run::Desk;
use desk_store::ListStore;
use std::alloc::Global;
use std::io::{self, ErrorKind, Read, Write};
use std::net::{Ipv4Addr, Net, SocketAddr, TcpListener, TcpStream};
use std::process::Abort;
use std::test::Fail;
use std::time::{Clock, Duration};

// A clock that stands still, so many seconds after the epoch.
#[derive(Drop)]
struct Standing(u64);

impl Clock for Standing {
    fn monotonic(&self) -> io::Result<Duration> {
        Ok(Duration::from_secs(0))
    }

    fn since_1970(&self) -> io::Result<Duration> {
        Ok(Duration::from_secs(self.0))
    }
}

// A network whose port is listened at already, so that clients can write before the desk binds it.
#[derive(Clone, Copy)]
struct Listened<'l> {
    listener: &'l TcpListener,
}

impl Net for Listened<'_> {
    type Stream = TcpStream;

    type Listener = TcpListener;

    fn bind(&self, _addr: SocketAddr) -> io::Result<TcpListener> {
        self.listener.try_clone()
    }

    fn connect(&self, _addr: SocketAddr) -> io::Result<TcpStream> {
        Err(io::Error::from(ErrorKind::Unsupported))
    }
}

// A client of a port that has written these bytes.
fn client_of(rt: &HostRuntime, address: SocketAddr, bytes: &[u8]) -> Result<TcpStream, Fail> {
    let mut client = TcpStream::connect(rt, address)?;
    client.write_all(bytes)?;
    Ok(client)
}

// What a client reads to the end.
fn read_by(alloc: Global, mut client: TcpStream) -> Result<Vec<u8>, Fail> {
    let mut answer = Vec::new(alloc);
    client.read_to_end(&mut answer)?;
    Ok(answer)
}

// The line of `serve` at port 1 for so many connections, with no operator.
pub fn serve_line(alloc: Global, connections: u32) -> ServeArgs
    requires { IsInRange 1 1000000 connections }
    ensures { IsServe result }
{
    ServeArgs {
        desk: DeskArgs {
            database: Database::InMemory,
            terms: Terms::none(),
            enrolments: Vec::new(alloc),
            operators: None,
            folder: None,
        },
        port: 1,
        connections,
    }
}

// A register that reports `alfa` when it is looked into for the Nth time.
#[derive(Drop)]
struct AtLook {
    looks: u32,
    wanted: u32,
}

// A register that reports `alfa` at the look of this number.
fn alfa_at(wanted: u32) -> AtLook {
    AtLook { looks: 0, wanted }
}

impl EnrolmentSource for AtLook {
    fn look(&mut self, alloc: Global) -> Result<Vec<Enrolment>, ErrorCode> {
        self.looks = self.looks.saturating_add(1);
        match Operator::try_new(b"alfa") {
            Some(operator) if self.looks == self.wanted => {
                let ceiling = 100;
                Ok(vec![in alloc; Enrolment { operator, ceiling }]?)
            }
            _ => Ok(Vec::new(alloc)),
        }
    }
}

// The exit status, the output and the errors of a `serve` of so many connections of a port at a moment, with
// `alfa` from the connection of a number on.
fn served(
    alloc: Global,
    net: Listened<'_>,
    connections: u32,
    alfa: u32,
    second: u64,
) -> (u8, Vec<u8>, Vec<u8>)
    requires { IsInRange 1 1000000 connections }
{
    let line = serve_line(alloc, connections);
    let mut desk = Desk::new(ListStore::new(alloc));
    let mut output = Vec::new(alloc);
    let mut errors = Vec::new(alloc);
    let clock = Standing(second);
    let mut port = LocalPort::new(&net, &clock, alfa_at(alfa), alloc, Vec::new(alloc));
    let exit = serve(alloc, &mut port, &line, &mut desk, &mut output, &mut errors);
    (exit.status, output, errors)
}

// Serves so many connections of a port at a moment, with `alfa` from the connection of a number on, and
// compares the word of the failure, if there is one.
fn check_served(
    rt: &impl Abort,
    alloc: Global,
    net: Listened<'_>,
    connections: u32,
    alfa: u32,
    row: (u64, &str),
) -> Result<(), Fail>
    requires { IsInRange 1 1000000 connections }
{
    let (second, word) = row;
    let (status, output, errors) = served(alloc, net, connections, alfa, second);
    assert_eq!(rt; status, if word.is_empty() { 0 } else { 4 }, "{second}");
    assert_eq!(rt; output.as_slice(), b"listening 127.0.0.1:1\n".as_slice());
    assert_eq!(rt; errors.as_slice(), word.as_bytes());
    Ok(())
}

// A client hangs up in mid-request; the one after it has its answer.
#[test]
fn serves_after_a_cut(rt: HostRuntime) -> Result<(), Fail> {
    let listener = TcpListener::bind(&rt, (Ipv4Addr::LOCALHOST, 0u16))?;
    let address = listener.local_addr()?;
    drop(client_of(&rt, address, &FIRST_PUT[..200])?);
    let client = client_of(&rt, address, FIRST_PUT)?;
    let net = Listened {
        listener: &listener,
    };
    check_served(&rt, rt.alloc(), net, 2, 1, (1_780_315_000, ""))?;
    assert_eq!(rt; read_by(rt.alloc(), client)?.as_slice(), COMPLETED);
    Ok(())
}

// The desk ends where the clock is past the last moment.
#[test]
fn takes_moments_in_range(rt: HostRuntime) -> Result<(), Fail> {
    for row in [
        (0, ""),
        (253_370_764_800, ""),
        (253_370_764_801, "uss_desk: clock\n"),
    ] {
        let listener = TcpListener::bind(&rt, (Ipv4Addr::LOCALHOST, 0u16))?;
        let client = client_of(&rt, listener.local_addr()?, FIRST_PUT)?;
        let net = Listened {
            listener: &listener,
        };
        check_served(&rt, rt.alloc(), net, 1, 1, row)?;
        drop(client);
    }
    Ok(())
}

// The moment is the clock's: a plan that ends at second 1,780,318,800 is completed one second before, and
// refused one minute after.
#[test]
fn asks_the_clock(rt: HostRuntime) -> Result<(), Fail> {
    for (second, answer) in [(1_780_318_799, COMPLETED), (1_780_318_860, LATE)] {
        let listener = TcpListener::bind(&rt, (Ipv4Addr::LOCALHOST, 0u16))?;
        let client = client_of(&rt, listener.local_addr()?, FIRST_PUT)?;
        let net = Listened {
            listener: &listener,
        };
        check_served(&rt, rt.alloc(), net, 1, 1, (second, ""))?;
        assert_eq!(rt; read_by(rt.alloc(), client)?.as_slice(), answer);
    }
    Ok(())
}

// An operator that is enrolled between two connections is known to the second alone.
#[test]
fn enrols_between_connections(rt: HostRuntime) -> Result<(), Fail> {
    let listener = TcpListener::bind(&rt, (Ipv4Addr::LOCALHOST, 0u16))?;
    let address = listener.local_addr()?;
    let first = client_of(&rt, address, FIRST_PUT)?;
    let second = client_of(&rt, address, FIRST_PUT)?;
    let net = Listened {
        listener: &listener,
    };
    check_served(&rt, rt.alloc(), net, 2, 2, (1_780_315_000, ""))?;
    assert!(rt; read_by(rt.alloc(), first)?.starts_with(b"HTTP/1.1 403 "));
    assert_eq!(rt; read_by(rt.alloc(), second)?.as_slice(), COMPLETED);
    Ok(())
}
