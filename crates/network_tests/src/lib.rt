// Executed checks of the calls on networks, where the program's own run does not reach.
#![tactic(auto)]

#[cfg(test)]
mod tests {
    use examine::examine;
    use fan_outs::greatest_fan_out;
    use mig::{Gate, Limits, Network, Question, Refusal};
    use outputs::{column, level, row_bit};
    use std::test::Fail;
    use walk::walk;

    // Like `gate` of crate known_cells: a public constructor would only leave out the names of the fields.
    const fn gate(first: u8, second: u8, third: u8) -> Gate {
        Gate {
            first,
            second,
            third,
        }
    }

    // The parity of the first three inputs, over n inputs; `count` gates are said to be there.
    fn parity(inputs: u8, count: u8) -> Network {
        let shift = if inputs == 4 { 2 } else { 0 };
        let mut gates = [Gate::default(); 7];
        gates[..3].copy_from_slice(&[gate(2, 4, 6), gate(2, 4, 7), gate(9 + shift, 10 + shift, 6)]);
        Network {
            count,
            gates,
            output: 12 + shift,
        }
    }

    #[test]
    fn column_agrees_with_row_bits(rt: HostRuntime) -> Result<(), Fail> {
        for inputs in 3..5 {
            let network = parity(inputs, 3);
            let rows = column(inputs, &network)?.rows;
            assert_eq!(rt; rows, 0x9696);
            for row in 0..16u8 {
                assert_eq!(rt; row_bit(inputs, &network, row)?, (rows >> row) % 2 == 1);
            }
        }
        Ok(())
    }

    #[test]
    fn short_buffer_is_left(rt: HostRuntime) -> Result<(), Fail> {
        let network = parity(3, 3);
        let given = [true, true, false, true, true, true, true];
        let mut values = given;
        assert_eq!(rt;
            walk(3, &network, &mut values[..6]),
            Err(Refusal::BufferTooShort)
        );
        assert_eq!(rt; values, given);
        assert_eq!(rt; walk(3, &network, &mut values)?, false);
        assert_eq!(rt; values, [false, true, false, true, true, false, false]);
        Ok(())
    }

    #[test]
    fn counts_above_seven_are_refused(rt: HostRuntime) -> Result<(), Fail> {
        let question = Question {
            inputs: 3,
            table: 0x96,
            limits: Limits {
                depth: 7,
                fan_out: 19,
            },
        };
        for count in 8..=255 {
            let network = parity(3, count);
            assert_eq!(rt;
                examine(&question, &network),
                Err(Refusal::MalformedNetwork)
            );
            assert_eq!(rt; level(3, &network), Err(Refusal::MalformedNetwork));
            assert_eq!(rt;
                greatest_fan_out(3, &network),
                Err(Refusal::MalformedNetwork)
            );
        }
        assert_eq!(rt; examine(&question, &parity(3, 7))?, (2, 1));
        Ok(())
    }
}
