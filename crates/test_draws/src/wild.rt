//! Bytes of messages, frames, lines and captures that are valid, nearly valid, or nothing.
use crate::draws::Draws;
use omci_msg::write_request;
use std::alloc::{AllocError, Global};

/// The starts of a capture: a header in each byte order, with times in microseconds and in nanoseconds.
const MAGICS: [[u8; 4]; 4] = [
    [0xa1, 0xb2, 0xc3, 0xd4],
    [0xa1, 0xb2, 0x3c, 0x4d],
    [0xd4, 0xc3, 0xb2, 0xa1],
    [0x4d, 0x3c, 0xb2, 0xa1],
];

/// What a line may begin with.
const FRONTS: [&str; 8] = [
    "o ", "o ", "o ", "f 257 ", "f 65535 ", "f 65536 ", "f +1 ", "# ",
];

/// The hexadecimal digits of both cases, the lower case twice.
const DIGITS: [&[u8; 16]; 3] = [
    b"0123456789abcdef",
    b"0123456789abcdef",
    b"0123456789ABCDEF",
];

impl Draws {
    fn byte(&mut self) -> u8 {
        (self.next() % 256) as u8
    }

    /// A place under a length that isn't 0, one of the first 16 more often than others.
    fn place(&mut self, len: usize) -> usize {
        let end = self.of(&[16, 16, usize::MAX]).min(len);
        if end == 0 {
            return 0;
        }
        (self.next() % end as u64) as usize
    }

    /// Sets a byte.
    fn set_byte(&mut self, bytes: &mut [u8]) {
        let drawn = self.byte();
        let value = self.of(&[0, 1, 0x0a, 0x20, 0xff, drawn]);
        let place = self.place(bytes.len());
        if let Some(byte) = bytes.get_mut(place) {
            *byte = value;
        }
    }

    /// Appends so many bytes without an order.
    fn append(&mut self, bytes: &mut Vec<u8>, count: usize) -> Result<(), AllocError> {
        for _ in 0..count {
            bytes.push(self.byte())?;
        }
        Ok(())
    }

    /// Changes bytes, or leaves them as they are: sets one, cuts them, makes them longer, or draws all of them anew.
    pub fn change(&mut self, bytes: &mut Vec<u8>) -> Result<(), AllocError> {
        let len = bytes.len();
        match self.of(&[0, 0, 1, 1, 1, 2, 3, 4]) {
            0 => {}
            1 => self.set_byte(bytes),
            2 => {
                let cut = (self.next() % 64) as usize;
                bytes.truncate(cut);
            }
            3 => {
                let more = self.of(&[1, 2, 4, 16]);
                self.append(bytes, more)?;
            }
            _ => {
                bytes.clear();
                self.append(bytes, len)?;
            }
        }
        Ok(())
    }

    /// The bytes of a request, changed or not.
    pub fn wild_message(&mut self, alloc: Global) -> Result<Vec<u8>, AllocError> {
        let request = self.request();
        let mut bytes = write_request(&request).to_vec(alloc)?;
        let len = self.of(&[44, 48, 48]);
        bytes.truncate(len);
        self.change(&mut bytes)?;
        Ok(bytes)
    }

    /// The bytes of a frame, changed or not.
    pub fn wild_frame(&mut self, alloc: Global) -> Result<Vec<u8>, AllocError> {
        let tags = self.of(&[0, 1, 1, 2, 2, 3]);
        let mut bytes = Vec::new(alloc);
        self.push_frame(&mut bytes, tags)?;
        self.change(&mut bytes)?;
        Ok(bytes)
    }

    /// Appends a line of a script with a message, changed or not.
    fn push_line(&mut self, line: &mut Vec<u8>, message: &[u8]) -> Result<(), AllocError> {
        let digits = self.of(&DIGITS);
        line.extend_from_slice(self.of(&FRONTS).as_bytes())?;
        push_digits(line, digits, message)?;
        if self.of(&[true, false, false]) {
            line.push(b'\r')?;
        }
        self.change(line)
    }

    /// A line of a script, changed or not.
    pub fn wild_line(&mut self, alloc: Global) -> Result<Vec<u8>, AllocError> {
        let message = self.wild_message(alloc)?;
        let mut line = Vec::new(alloc);
        self.push_line(&mut line, &message)?;
        Ok(line)
    }

    /// Appends the record of a frame.
    fn push_record(
        &mut self,
        file: &mut Vec<u8>,
        alloc: Global,
        high_first: bool,
    ) -> Result<(), AllocError> {
        let frame = self.wild_frame(alloc)?;
        let len = u32::try_from(frame.len()).unwrap_or(0);
        push_numbers(file, high_first, &[0, 0, len, len])?;
        file.extend_from_slice(&frame)
    }

    /// Appends a capture file of up to three frames, changed or not.
    fn push_capture(&mut self, file: &mut Vec<u8>, alloc: Global) -> Result<(), AllocError> {
        let magic = self.of(&MAGICS);
        let high_first = magic[0] == 0xa1;
        file.extend_from_slice(&magic)?;
        push_numbers(file, high_first, &[2, 0, 0, 262_144, 1])?;
        for _ in 0..self.of(&[0, 1, 2, 3]) {
            self.push_record(file, alloc, high_first)?;
        }
        self.change(file)
    }

    /// A capture file of up to three frames, changed or not.
    pub fn wild_capture(&mut self, alloc: Global) -> Result<Vec<u8>, AllocError> {
        let mut file = Vec::new(alloc);
        self.push_capture(&mut file, alloc)?;
        Ok(file)
    }
}

/// Appends the two digits of each byte.
fn push_digits(line: &mut Vec<u8>, digits: &[u8; 16], bytes: &[u8]) -> Result<(), AllocError> {
    for byte in bytes {
        line.push(digits[usize::from(*byte >> 4)])?;
        line.push(digits[usize::from(*byte & 15)])?;
    }
    Ok(())
}

/// Appends numbers in a byte order.
fn push_numbers(file: &mut Vec<u8>, high_first: bool, numbers: &[u32]) -> Result<(), AllocError> {
    for number in numbers {
        let bytes = if high_first {
            number.to_be_bytes()
        } else {
            number.to_le_bytes()
        };
        file.extend_from_slice(&bytes)?;
    }
    Ok(())
}
