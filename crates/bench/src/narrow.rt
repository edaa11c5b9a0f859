// Number 10: each lent store one byte too short.
use crate::calls::Board;
use crate::print::Line;
use crate::{calls, print};
use std::io;

const STATUS: [u8; 2] = [0x25, 0xFB];

// Stays: each lends another store too short; one function for all would be lent all five, and each call of it would be as long as these.
fn short_state(rt: &impl Print, board: &mut Board) -> io::Result<()> {
    print::title(
        &mut board.line,
        rt,
        b"10: exchange with a state of 173 bytes",
    )?;
    calls::lent(
        &mut board.line,
        rt,
        &mut [0; 173],
        &STATUS,
        &mut [0; 263],
        &mut board.write_store,
        &board.read_store,
    )
}

fn short_reply(rt: &impl Print, board: &mut Board) -> io::Result<()> {
    print::title(&mut board.line, rt, b"10: a reply of 262")?;
    calls::lent(
        &mut board.line,
        rt,
        &mut board.state,
        &STATUS,
        &mut [0; 262],
        &mut board.write_store,
        &board.read_store,
    )
}

fn short_write_store(rt: &impl Print, board: &mut Board) -> io::Result<()> {
    print::title(&mut board.line, rt, b"10: a write store of 255")?;
    calls::lent(
        &mut board.line,
        rt,
        &mut board.state,
        &STATUS,
        &mut [0; 263],
        &mut [0; 255],
        &board.read_store,
    )
}

fn short_read_store(rt: &impl Print, board: &mut Board) -> io::Result<()> {
    print::title(&mut board.line, rt, b"10: a read store of 4,095")?;
    calls::lent(
        &mut board.line,
        rt,
        &mut board.state,
        &STATUS,
        &mut [0; 263],
        &mut board.write_store,
        &[0; 4095],
    )
}

fn short_states(rt: &impl Print, line: &mut Line) -> io::Result<()> {
    print::title(line, rt, b"10: the board calls with a state of 173")?;
    print::done(line, rt, "start", espi::espi_start(&mut [0; 173]))?;
    print::done(line, rt, "reset", espi::espi_reset(&mut [0; 173]))?;
    print::done(
        line,
        rt,
        "platform reset",
        espi::espi_platform_reset(&mut [0; 173]),
    )?;
    print::done(
        line,
        rt,
        "set wire",
        espi::espi_set_wire(&mut [0; 173], 4, 0, 1),
    )?;
    print::done(line, rt, "read wire", espi::espi_read_wire(&[0; 173], 4, 0))?;
    print::done(
        line,
        rt,
        "set line",
        espi::espi_set_line(&mut [0; 173], 1, 1),
    )?;
    print::done(
        line,
        rt,
        "pulse line",
        espi::espi_pulse_line(&mut [0; 173], 1),
    )
}

fn short_reports(rt: &impl Print, board: &mut Board) -> io::Result<()> {
    let line = &mut board.line;
    print::title(
        line,
        rt,
        b"10: look with a report of 18, take with one of 9 and with a write store of 255, answer with a read store of 4,095",
    )?;
    print::done(
        line,
        rt,
        "look",
        espi::espi_look(&board.state, &mut [0; 18]),
    )?;
    print::done(
        line,
        rt,
        "take",
        espi::espi_take_write(&mut board.state, &board.write_store, &mut [0; 9]),
    )?;
    print::done(
        line,
        rt,
        "take",
        espi::espi_take_write(&mut board.state, &[0; 255], &mut [0; 10]),
    )?;
    print::done(
        line,
        rt,
        "answer",
        espi::espi_answer(&mut board.state, &mut [0; 4095], 1, 1, b""),
    )
}

pub fn run(rt: &impl Print, board: &mut Board) -> io::Result<()> {
    short_state(rt, board)?;
    short_reply(rt, board)?;
    short_write_store(rt, board)?;
    short_read_store(rt, board)?;
    short_states(rt, &mut board.line)?;
    short_reports(rt, board)
}
