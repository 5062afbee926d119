// Networks over a triangle of three nodes, as `read_network` gives them. The refusals of the tables that have no file here are tested in
// `lorry_plan`.
mod faults;
mod jobs;
mod limits;
mod parking;
mod rules;
mod vehicles;

use network_tables::{Files, Network, NetworkFault, read_network};
use route_base::{BadInput, Cause, FileBytes, FileKind, OutOfMemory};
use std::alloc::Global;

const TRIANGLE: &str = "p sp 3 3\na 1 2 60\na 2 3 60\na 1 3 300\n";

pub const AREAS: &str = "area,zone\nport,UTC\ntown,UTC\n";

pub const VEHICLE_HEADER: &str =
    "name,class,weight_kg,axleload_kg,height_cm,width_cm,length_cm,axles,purpose,flags\n";

// The bytes of a text.
fn file_of(alloc: Global, text: &str) -> Result<FileBytes, OutOfMemory> {
    Ok(FileBytes::from_vec(Vec::from_slice(alloc, text.as_bytes())?))
}

// Puts the triangle and these texts among the files.
fn put_texts(
    alloc: Global,
    files: &mut Files,
    texts: &[(FileKind, &str)],
) -> Result<(), OutOfMemory> {
    files.put(FileKind::Graph, file_of(alloc, TRIANGLE)?);
    for (file, text) in texts {
        files.put(*file, file_of(alloc, text)?);
    }
    Ok(())
}

// The network of these tables over the triangle, or over the graph that is among them.
pub fn read(alloc: Global, texts: &[(FileKind, &str)]) -> Result<Network, NetworkFault> {
    let mut files = Files::new(alloc);
    put_texts(alloc, &mut files, texts)?;
    read_network(alloc, &files)
}

// The network of these vehicles and rules over the triangle, with arc 2 in the second area.
pub fn ruled<'a>(
    alloc: Global,
    vehicles: &'a str,
    rules: &'a str,
) -> Result<Network, NetworkFault> {
    let texts = [
        (FileKind::Areas, AREAS),
        (FileKind::Roads, "arc,area\n2,town\n"),
        (FileKind::Vehicles, vehicles),
        (FileKind::Rules, rules),
    ];
    read(alloc, &texts)
}

// The text of a table with this header and these rows.
pub fn table(alloc: Global, header: &str, rows: &str) -> Result<String, OutOfMemory> {
    Ok(format!(in alloc; "{header}{rows}")?)
}

// Whether a file is refused at this record and for this cause.
pub fn is_refused(
    read: Result<Network, NetworkFault>,
    file: FileKind,
    row: u64,
    cause: Cause,
) -> bool {
    match read {
        Err(fault) => fault == NetworkFault::Bad(BadInput { file, row, cause }),
        Ok(_) => false,
    }
}
