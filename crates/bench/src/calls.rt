// The board: what is lent to the eleven calls. Each makes its call, and writes the line that tells it.
// Stays: the program's handle is lent beside the board, since the board does not own it and every function of the library asks for it so.
use crate::print::{self, Line};
use std::io;

// An exchange over any stores.
pub fn lent(
    line: &mut Line,
    rt: &impl Print,
    state: &mut [u8],
    command: &[u8],
    reply: &mut [u8],
    write_store: &mut [u8],
    read_store: &[u8],
) -> io::Result<()> {
    let word = espi::espi_exchange(state, command, reply, write_store, read_store);
    print::exchanged(line, rt, command, word, reply)
}

// Tells the blocks of 64 apart.
fn pattern(i: usize) -> u8 {
    ((i % 256 + i / 64 % 256) % 256) as u8
}

#[derive(Drop)]
pub struct Board {
    pub state: [u8; 174],
    pub write_store: [u8; 256],
    pub read_store: [u8; 4096],
    pub line: Line,
}

impl Board {
    pub fn exchange(&mut self, rt: &impl Print, command: &[u8]) -> io::Result<()> {
        let mut reply = [0; 263];
        let word = espi::espi_exchange(
            &mut self.state,
            command,
            &mut reply,
            &mut self.write_store,
            &self.read_store,
        );
        print::exchanged(&mut self.line, rt, command, word, &reply)
    }

    // GET_PC, n times.
    pub fn pieces(&mut self, rt: &impl Print, n: u32) -> io::Result<()> {
        for _ in 0..n {
            self.exchange(rt, &[0x01, 0x07])?;
        }
        Ok(())
    }

    pub fn start(&mut self, rt: &impl Print) -> io::Result<()> {
        print::done(
            &mut self.line,
            rt,
            "start",
            espi::espi_start(&mut self.state),
        )
    }

    pub fn reset(&mut self, rt: &impl Print) -> io::Result<()> {
        print::done(
            &mut self.line,
            rt,
            "reset",
            espi::espi_reset(&mut self.state),
        )
    }

    pub fn platform_reset(&mut self, rt: &impl Print) -> io::Result<()> {
        print::done(
            &mut self.line,
            rt,
            "platform reset",
            espi::espi_platform_reset(&mut self.state),
        )
    }

    pub fn look(&mut self, rt: &impl Print) -> io::Result<()> {
        let mut report = [0; 19];
        let word = espi::espi_look(&self.state, &mut report);
        print::reported(&mut self.line, rt, "look", word, &report)
    }

    // The report, and the data that the write store holds.
    pub fn take(&mut self, rt: &impl Print) -> io::Result<()> {
        let mut report = [0; 10];
        let word = espi::espi_take_write(&mut self.state, &self.write_store, &mut report);
        print::reported(&mut self.line, rt, "take", word, &report)?;
        if word == 0 {
            let length = u16::from_le_bytes([report[8], report[9]]);
            let data = &self.write_store[..];
            print::stored(
                &mut self.line,
                rt,
                data.get(..usize::from(length)).unwrap_or(data),
            )?;
        }
        Ok(())
    }

    pub fn answer(
        &mut self,
        rt: &impl Print,
        serial: u32,
        success: u32,
        bytes: &[u8],
    ) -> io::Result<()> {
        let word = espi::espi_answer(
            &mut self.state,
            &mut self.read_store,
            serial,
            success,
            bytes,
        );
        print::answered(&mut self.line, rt, word, serial, success, bytes.len())
    }

    // Success with n bytes, if the read store holds so many: byte i is i plus the number of its block of 64, modulo 256.
    pub fn answer_long(&mut self, rt: &impl Print, serial: u32, n: usize) -> io::Result<()> {
        let mut bytes = [0; 4096];
        if bytes.len() < n {
            return Ok(());
        }
        for (i, byte) in bytes[..n].iter_mut().enumerate() {
            *byte = pattern(i);
        }
        self.answer(rt, serial, 1, &bytes[..n])
    }

    pub fn set_wire(
        &mut self,
        rt: &impl Print,
        index: u32,
        bit: u32,
        value: u32,
    ) -> io::Result<()> {
        let word = espi::espi_set_wire(&mut self.state, index, bit, value);
        print::wire_set(&mut self.line, rt, word, index, bit, value)
    }

    pub fn read_wire(&mut self, rt: &impl Print, index: u32, bit: u32) -> io::Result<()> {
        let word = espi::espi_read_wire(&self.state, index, bit);
        print::wire_read(&mut self.line, rt, word, index, bit)
    }

    pub fn set_line(&mut self, rt: &impl Print, line: u32, level: u32) -> io::Result<()> {
        let word = espi::espi_set_line(&mut self.state, line, level);
        print::line_set(&mut self.line, rt, word, line, level)
    }

    pub fn pulse_line(&mut self, rt: &impl Print, line: u32) -> io::Result<()> {
        let word = espi::espi_pulse_line(&mut self.state, line);
        print::line_pulsed(&mut self.line, rt, word, line)
    }

    // Every line below n, in one line of text: the number of the last that is refused, or 0.
    pub fn set_lines(&mut self, rt: &impl Print, n: u32, level: u32) -> io::Result<()> {
        let mut refused = 0;
        for line in 0..n {
            let word = espi::espi_set_line(&mut self.state, line, level);
            if word != 0 {
                refused = word;
            }
        }
        print::lines_set(&mut self.line, rt, refused, n, level)
    }
}
