//! `--strict`: the proved commands run over files that were read, and the same bytes say how they end.

use crate::bytes_read::{BytesRead, sources_of};
use crate::files::{file_at, sources_at};
use crate::open_files::Files;
use crate::watched_route::WatchedRoute;
use command_line::Paths;
use line_text::Moment;
use relay_base::NoMemory;
use relay_commands::{HandedForm, replay, replay_lines, route, route_names};
use relay_files::{Configuration, RelayFault, Role, Sources, Status, read_source, text_in};
use replay::Script;
use std::alloc::Global;
use std::io::Write;

/// The files of a configuration, read once for a command and for what watches it.
#[derive(Drop)]
pub struct StrictFiles {
    config: Vec<u8>,
    rules: Option<Vec<u8>>,
    rewrite: Option<Vec<u8>>,
    watch: WatchedRoute,
}

impl StrictFiles {
    /// Reads the files at these paths. It ends with their first fault, as the command does.
    pub fn read<'a>(
        files: &'a Files<'a>,
        alloc: Global,
        paths: &'a Paths,
    ) -> Result<StrictFiles, RelayFault> {
        let mut sources = sources_at(files, alloc, paths)?;
        let read = Configuration::read(alloc, &mut sources);
        drop(sources);
        let Configuration {
            plan,
            config,
            rules,
            rewrite,
            ..
        } = read?;
        Ok(StrictFiles {
            config,
            rules,
            rewrite,
            watch: WatchedRoute::new(alloc, plan),
        })
    }

    /// The files, as the command reads them.
    fn sources(&self) -> Sources<BytesRead<'_>> {
        sources_of(&self.config, &self.rules, &self.rewrite)
    }

    /// The status of a command that ended so, and whose names or datapoints were routed so.
    fn status_of(&self, routed: Result<(), NoMemory>) -> Result<Status, RelayFault> {
        routed?;
        Ok(self.watch.status())
    }

    /// Runs `route` with a name.
    pub fn route<W: Write>(
        &mut self,
        alloc: Global,
        name: &str,
        output: &mut W,
    ) -> Result<Status, RelayFault> {
        route(alloc, &mut self.sources(), name, output)?;
        let routed = self.watch.route_name(name.as_bytes());
        self.status_of(routed)
    }

    /// Runs `route` with these names.
    pub fn route_names<W: Write, N: Write>(
        &mut self,
        alloc: Global,
        names: &[u8],
        output: &mut W,
        notes: &mut N,
    ) -> Result<Status, RelayFault> {
        let mut source = BytesRead::new(names);
        route_names(alloc, &mut self.sources(), &mut source, output, notes)?;
        let routed = self.watch.route_names(names);
        self.status_of(routed)
    }

    /// Runs `replay` with this script.
    pub fn replay<W: Write>(
        &mut self,
        alloc: Global,
        script: &[u8],
        form: HandedForm,
        output: &mut W,
    ) -> Result<Status, RelayFault> {
        let mut source = BytesRead::new(script);
        replay(alloc, &mut self.sources(), &mut source, form, output)?;
        let text = text_in(Role::Script, script)?;
        let Ok(script) = Script::read(alloc, text) else {
            return Err(RelayFault::NoMemory);
        };
        let routed = self.watch.route_script(&script);
        drop(script);
        self.status_of(routed)
    }

    /// Runs `replay` with these lines.
    pub fn replay_lines<W: Write>(
        &mut self,
        alloc: Global,
        lines: &[u8],
        form: HandedForm,
        output: &mut W,
    ) -> Result<Status, RelayFault> {
        let mut source = BytesRead::new(lines);
        replay_lines(alloc, &mut self.sources(), &mut source, form, output)?;
        let routed = self.watch.route_lines(lines, first_moment());
        self.status_of(routed)
    }
}

/// The moment of lines without a script.
fn first_moment() -> Moment {
    match Moment::new(0) {
        Some(moment) => moment,
        None => unreachable!(),
    }
}

/// The bytes of the file of names, of the script or of the lines at a path.
pub fn input_at<'a>(
    files: &'a Files<'a>,
    alloc: Global,
    role: Role,
    path: &'a String,
) -> Result<Vec<u8>, RelayFault> {
    let mut source = file_at(files, path);
    let read = read_source(alloc, role, &mut source);
    drop(source);
    read
}
