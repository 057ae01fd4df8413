// The registers as gdb is told of them: x0 to x31 and pc, the control and status registers of HS, VS and the
// hypervisor by 65 and their numbers, and the mode.

use csr_file::CSR_NAMES;
use itoa::Buffer;
use no_memory::NoMemory;
use std::alloc::Global;

// gdb's number of the control and status register 0.
const FIRST_CSR: u32 = 65;

// What stands before the control and status registers.
const HEAD: &[u8] = b"\
    <?xml version=\"1.0\"?>\n\
    <!DOCTYPE target SYSTEM \"gdb-target.dtd\">\n\
    <target version=\"1.0\">\n\
    <architecture>riscv:rv64</architecture>\n\
    <osabi>none</osabi>\n\
    <feature name=\"org.gnu.gdb.riscv.cpu\">\n\
    <reg name=\"zero\" bitsize=\"64\" type=\"int\" regnum=\"0\"/>\n\
    <reg name=\"ra\" bitsize=\"64\" type=\"code_ptr\" regnum=\"1\"/>\n\
    <reg name=\"sp\" bitsize=\"64\" type=\"data_ptr\" regnum=\"2\"/>\n\
    <reg name=\"gp\" bitsize=\"64\" type=\"data_ptr\" regnum=\"3\"/>\n\
    <reg name=\"tp\" bitsize=\"64\" type=\"data_ptr\" regnum=\"4\"/>\n\
    <reg name=\"t0\" bitsize=\"64\" type=\"int\" regnum=\"5\"/>\n\
    <reg name=\"t1\" bitsize=\"64\" type=\"int\" regnum=\"6\"/>\n\
    <reg name=\"t2\" bitsize=\"64\" type=\"int\" regnum=\"7\"/>\n\
    <reg name=\"fp\" bitsize=\"64\" type=\"data_ptr\" regnum=\"8\"/>\n\
    <reg name=\"s1\" bitsize=\"64\" type=\"int\" regnum=\"9\"/>\n\
    <reg name=\"a0\" bitsize=\"64\" type=\"int\" regnum=\"10\"/>\n\
    <reg name=\"a1\" bitsize=\"64\" type=\"int\" regnum=\"11\"/>\n\
    <reg name=\"a2\" bitsize=\"64\" type=\"int\" regnum=\"12\"/>\n\
    <reg name=\"a3\" bitsize=\"64\" type=\"int\" regnum=\"13\"/>\n\
    <reg name=\"a4\" bitsize=\"64\" type=\"int\" regnum=\"14\"/>\n\
    <reg name=\"a5\" bitsize=\"64\" type=\"int\" regnum=\"15\"/>\n\
    <reg name=\"a6\" bitsize=\"64\" type=\"int\" regnum=\"16\"/>\n\
    <reg name=\"a7\" bitsize=\"64\" type=\"int\" regnum=\"17\"/>\n\
    <reg name=\"s2\" bitsize=\"64\" type=\"int\" regnum=\"18\"/>\n\
    <reg name=\"s3\" bitsize=\"64\" type=\"int\" regnum=\"19\"/>\n\
    <reg name=\"s4\" bitsize=\"64\" type=\"int\" regnum=\"20\"/>\n\
    <reg name=\"s5\" bitsize=\"64\" type=\"int\" regnum=\"21\"/>\n\
    <reg name=\"s6\" bitsize=\"64\" type=\"int\" regnum=\"22\"/>\n\
    <reg name=\"s7\" bitsize=\"64\" type=\"int\" regnum=\"23\"/>\n\
    <reg name=\"s8\" bitsize=\"64\" type=\"int\" regnum=\"24\"/>\n\
    <reg name=\"s9\" bitsize=\"64\" type=\"int\" regnum=\"25\"/>\n\
    <reg name=\"s10\" bitsize=\"64\" type=\"int\" regnum=\"26\"/>\n\
    <reg name=\"s11\" bitsize=\"64\" type=\"int\" regnum=\"27\"/>\n\
    <reg name=\"t3\" bitsize=\"64\" type=\"int\" regnum=\"28\"/>\n\
    <reg name=\"t4\" bitsize=\"64\" type=\"int\" regnum=\"29\"/>\n\
    <reg name=\"t5\" bitsize=\"64\" type=\"int\" regnum=\"30\"/>\n\
    <reg name=\"t6\" bitsize=\"64\" type=\"int\" regnum=\"31\"/>\n\
    <reg name=\"pc\" bitsize=\"64\" type=\"code_ptr\" regnum=\"32\"/>\n\
    </feature>\n\
    <feature name=\"org.gnu.gdb.riscv.csr\">\n";

// What stands behind them.
const TAIL: &[u8] = b"\
    </feature>\n\
    <feature name=\"org.gnu.gdb.riscv.virtual\">\n\
    <reg name=\"priv\" bitsize=\"64\" type=\"int\" regnum=\"4161\"/>\n\
    </feature>\n\
    </target>\n";

/// The target description (manual of gdb, "Target Descriptions").
///
/// # Errors
///
/// Out of memory.
pub fn target_description(alloc: Global) -> Result<Vec<u8>, NoMemory> {
    let mut text = Vec::from_slice(alloc, HEAD)?;
    for (name, number) in &CSR_NAMES {
        let mut digits = Buffer::new();
        text.extend_from_slice(b"<reg name=\"")?;
        text.extend_from_slice(name.as_bytes())?;
        text.extend_from_slice(b"\" bitsize=\"64\" type=\"int\" regnum=\"")?;
        text.extend_from_slice(digits.format(*number as u32 + FIRST_CSR).as_bytes())?;
        text.extend_from_slice(b"\"/>\n")?;
    }
    text.extend_from_slice(TAIL)?;
    Ok(text)
}
