//! The services, and how each ended.

ghost use Rattle.std.specs.Prelude.{◌≡◌};
ghost use Rattle.ttd.specs.declared.services.Stop.TheVariants.{Refused};

use crate::asking::ask;
use crate::faults::ServiceFault;
use crate::making::make_key;
use crate::reading::read;
use crate::serving::run_server;
use crate::standard::fill_standard;
use crate::watching::{Manner, Screen, show};
use std::rt::Env;
use tt_host::{ByClocks, HostClock};
use tt_server::ServerHost;
use tt_stream::{ByteReader, ByteWriter};
use ttd_masters::{AsksServers, MasterPlan, serve_polls};
use ttd_words::{Service, Status, explain, explain_unwritten, refuse};

/// Why a service stops before its answer is complete.
#[derive(Clone, Copy)]
pub(crate) enum Stop {
    /// The service refused.
    Refused(ServiceFault),
    /// The output failed.
    Unwritten,
    /// All was written, and the program ends so.
    Told(Status),
}

impl From<ServiceFault> for Stop {
    ghost from_gives = { λ fault stop. stop ≡ Refused fault };

    fn from(fault: ServiceFault) -> Stop {
        Stop::Refused(fault)
    }
}

/// Runs a service, and answers how the program ends. Standard error says what a refusal means.
pub(crate) fn serve<
    H: ServerHost + ByClocks + AsksServers + Env + Screen,
    I: ByteReader,
    O: ByteWriter,
>(rt: &H, service: &Service<'_>, input: &mut I, output: &mut O) -> Status {
    match run_service(rt, service, input, output) {
        Ok(()) => Status::Fine,
        Err(Stop::Refused(fault)) => {
            explain(rt, u64::from(fault.number()), &fault);
            refuse(output, fault.number(), fault.status())
        }
        Err(Stop::Unwritten) => {
            explain_unwritten(rt);
            Status::Device
        }
        Err(Stop::Told(status)) => status,
    }
}

/// Runs a service.
fn run_service<H: ServerHost + ByClocks + AsksServers + Env + Screen, I: ByteReader, O: ByteWriter>(
    rt: &H,
    service: &Service<'_>,
    input: &mut I,
    output: &mut O,
) -> Result<(), Stop> {
    fill_standard(rt)?;
    match service {
        Service::Master {
            source,
            listen,
            time,
            warn_width,
            log,
            keys,
            status,
            http,
        } => {
            let plan = MasterPlan {
                source: *source,
                listen: *listen,
                time,
                warn_width: *warn_width,
                log: *log,
                keys: *keys,
                status: *status,
                http: *http,
            };
            serve_polls(&rt.by(HostClock::Raw), plan).map_err(ServiceFault::from)?;
            Ok(())
        }
        Service::Serve {
            file,
            check,
            until_eof,
        } => run_server(rt, file, *check, *until_eof, output),
        Service::Ask { peer, line, retry } => {
            let text = match line {
                Some(line) => Some(line.as_str()),
                None => None,
            };
            ask(rt, *peer, text, *retry, input, output)
        }
        Service::Read { file } => read(rt, file, output),
        Service::Top {
            place,
            once,
            columns,
            svg,
        } => {
            let manner = Manner {
                once: *once,
                svg: *svg,
                columns: *columns,
            };
            show(rt, *place, manner, output)
        }
        Service::Key { id, name } => make_key(rt, *id, *name, output),
    }
}
